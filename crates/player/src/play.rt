// Playing a script: the calls are made one by one, and each answer is a line.
use super::failure::Failure;
use super::intervals::{Intervals, find, take};
use super::memories::Memories;
use super::reading::{Numbered, Wanted, read_script, wanted_machine};
use super::totals::Totals;
use buses::board::OddsBoard;
use buses::bus::Bus;
use buses::store::Store;
use script::answers::answer_line;
use script::labels::label;
use script::lines::{Line, is_setting};
use script::operands::UnitName;
use std::alloc::{AllocError, Global};
use std::collections::BTreeMap;
use std::io::Write;
use terminal::Terminal;
use terminal::calls::{Answer, Call, Unmade};
use terminal::interval::Seal;
use units::aes::Aes;
use units::cham::Cham;
use units::unit::Unit;

// What plays a script: its terminal, the intervals that are open, and what the calls came to.
#[derive(Drop)]
struct Player<'r, B: Bus, U: Unit> {
    rt: &'r HostRuntime,
    terminal: Terminal<B, U>,
    open: Intervals,
    totals: Totals,
}

// The call of a line that opens no interval and closes none, if it is one that can be made.
fn call_of<'i>(
    heap: Global,
    line: &Line,
    open: &'i Intervals,
) -> Result<Option<Call<'i>>, AllocError> {
    Ok(match line {
        Line::Load(pairs, program) => {
            let program = Vec::from_slice(heap, program)?;
            Some(Call::Load(*pairs, program))
        }
        Line::Start => Some(Call::Start),
        Line::Raise(number) => Some(Call::Raise(*number)),
        Line::Run(budget) => Some(Call::Run(*budget)),
        Line::Put(address, byte) => Some(Call::Put(*address, *byte)),
        Line::Cell(address) => Some(Call::Cell(*address)),
        Line::Register(number) => Some(Call::Register(*number)),
        Line::Status => Some(Call::Status),
        Line::Entry(name, offset, byte) => {
            find(open, name).map(|interval| Call::Entry(interval, *offset, *byte))
        }
        _ => None,
    })
}

// Makes one call, as a list of one, which has one answer: the theorems of a terminal stand on `perform`.
fn single<B: Bus, U: Unit>(
    heap: Global,
    terminal: &mut Terminal<B, U>,
    call: Call<'_>,
) -> Result<Result<Answer, Unmade>, AllocError> {
    let mut answers = terminal.perform(heap, vec![in heap; call]?)?;
    let Some(answer) = answers.pop() else {
        unreachable!()
    };
    Ok(answer)
}

impl<'r, B: Bus, U: Unit> Player<'r, B, U> {
    // Writes a line of bytes.
    fn say(&self, text: &[u8]) -> Result<(), Failure> {
        let mut out = self.rt.stdout();
        out.write_all(text)?;
        out.write_all(b"\n")?;
        Ok(())
    }

    // Writes why no call is made.
    fn pass_over(&self, label: &[u8], why: &[u8]) -> Result<(), Failure> {
        let mut text = Vec::from_slice(self.rt.alloc(), label)?;
        text.extend_from_slice(b": ")?;
        text.extend_from_slice(why)?;
        self.say(text.as_slice())
    }

    // Counts an answer and writes it.
    fn tell(&mut self, label: &[u8], answer: &Result<Answer, Unmade>) -> Result<(), Failure> {
        self.totals.count(answer);
        let text = answer_line(self.rt.alloc(), label, answer)?;
        self.say(text.as_slice())
    }

    // Opens an interval under a name that is free.
    fn open(
        &mut self,
        label: &[u8],
        name: &[u8],
        seal: Seal,
        first: u16,
        count: u16,
    ) -> Result<(), Failure> {
        let heap = self.rt.alloc();
        if find(&self.open, name).is_some() {
            return self.pass_over(label, b"name taken");
        }
        let name = Vec::from_slice(heap, name)?;
        let answer = single(heap, &mut self.terminal, Call::Open(seal, first, count))?;
        self.tell(label, &answer)?;
        if let Ok(Answer::Opened(interval)) = answer {
            self.open.insert(name, interval)?;
        }
        Ok(())
    }

    // Closes the interval of a name; a refusal hands it back.
    fn close(&mut self, label: &[u8], name: &[u8]) -> Result<(), Failure> {
        let heap = self.rt.alloc();
        let Some((name, interval)) = take(&mut self.open, name) else {
            return self.pass_over(label, b"no interval");
        };
        let answer = single(heap, &mut self.terminal, Call::Close(interval))?;
        self.tell(label, &answer)?;
        if let Err(Unmade::Unclosed(unclosed)) = answer {
            self.open.insert(name, unclosed.interval)?;
        }
        Ok(())
    }

    // Makes the call of any other line.
    fn other(&mut self, label: &[u8], line: &Line) -> Result<(), Failure> {
        let heap = self.rt.alloc();
        let Some(call) = call_of(heap, line, &self.open)? else {
            return self.pass_over(label, b"no interval");
        };
        let answer = single(heap, &mut self.terminal, call)?;
        self.tell(label, &answer)
    }

    // Does what a line says, if it says a call.
    fn line(&mut self, line: &Line) -> Result<(), Failure> {
        if is_setting(line) {
            return Ok(());
        }
        let label = label(self.rt.alloc(), line)?;
        match line {
            Line::Open(name, seal, first, count) => {
                self.open(label.as_slice(), name, *seal, *first, *count)
            }
            Line::Close(name) => self.close(label.as_slice(), name),
            _ => self.other(label.as_slice(), line),
        }
    }
}

// Makes the calls of a script on a new terminal.
fn perform<B: Bus + Drop, U: Unit + Drop>(
    rt: &HostRuntime,
    bus: B,
    unit: U,
    lines: &[Numbered],
) -> Result<(), Failure> {
    let heap = rt.alloc();
    let mut player = Player {
        rt,
        terminal: Terminal::new(heap, bus, unit),
        open: BTreeMap::new(heap),
        totals: Totals::default(),
    };
    for numbered in lines {
        player.line(&numbered.line)?;
    }
    let totals = player.totals;
    println!(rt; "{totals}")?;
    Ok(())
}

// Makes the calls of a script on a machine with a bus and the unit of a name.
fn with_unit<B: Bus + Drop>(
    rt: &HostRuntime,
    bus: B,
    unit: UnitName,
    lines: &[Numbered],
) -> Result<(), Failure> {
    match unit {
        UnitName::Aes => perform(rt, bus, Aes::new(), lines),
        UnitName::Cham => perform(rt, bus, Cham::new(), lines),
    }
}

// Plays the script in a text.
pub fn play(rt: &HostRuntime, text: &[u8]) -> Result<(), Failure> {
    let heap = rt.alloc();
    let lines = read_script(heap, text)?;
    let Wanted { cells, page, unit } = wanted_machine(heap, lines.as_slice())?;
    let mut memories = Memories::new(heap, cells)?;
    memories.fill(heap, lines.as_slice())?;
    // The other case is not reached, both memories having the same cells, 65536 at most; one of its own would be no plainer.
    let Ok(store) = Store::new(memories.bytes.as_mut_slice(), memories.marks.as_mut_slice()) else {
        return Err(Failure::NoMemory);
    };
    match page {
        None => with_unit(rt, store, unit, lines.as_slice()),
        Some(page) => with_unit(rt, OddsBoard::new(page, store), unit, lines.as_slice()),
    }
}
