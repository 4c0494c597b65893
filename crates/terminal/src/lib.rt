// A betting terminal: a machine, the intervals of its hall, and the eleven calls.
#![tactic(auto)]

ghost use Rattle.std.specs.Prelude.{◌≡◌, map, is_ok, IfOk, if◌then◌else◌};
ghost use Rattle.std.specs.Vec as vectors;
ghost use Rattle.cpu.specs.Machines.{service};
ghost use Rattle.terminal.specs.Calls.{load, start, raise, run, put, opening, entry, close, cell, register, status};
ghost use Rattle.terminal.specs.Theorems.{Noninterference, Transparency};
ghost use Rattle.terminal.specs.Responses.{Responds, made, terminal_of, performed_of, done_of, byte_of, opened_of, closed_of, ran_of, stands_of, answer_of, call_of};

pub mod calls;
pub mod interval;

use buses::bus::Bus;
use calls::{Answer, Call, Refusal, Standing, Unclosed, Unmade};
use cpu::machine::{Machine, Run};
use cpu::state::{Core, Mode};
use interval::{Interval, Seal};
use marks::Marked;
use std::alloc::{AllocError, Global};
use units::unit::Unit;

// What it contains is told by terminal_of: an impl Model could not, since the cells of a bus are a function, which has no code.
#[derive(Drop)]
pub struct Terminal<B, U> {
    machine: Machine<B, U>,
}

impl<B: Bus, U: Unit> Terminal<B, U> {
    // A terminal with 1 saved pair and no program.
    pub fn new(heap: Global, bus: B, unit: U) -> Terminal<B, U>
        ensures made { terminal_of B.Bus U.Unit result ≡ made (B.Bus.cells bus) (U.Unit.contents unit) }
        ensures bus { result.machine.bus ≡ bus }
        ensures unit { result.machine.unit ≡ unit }
    {
        Terminal {
            machine: Machine {
                core: Core::new(1),
                program: Vec::new(heap),
                bus,
                unit,
            },
        }
    }

    // Replaces program and pairs, and begins anew; bus and unit stay.
    pub fn load(&mut self, pairs: u8, program: Vec<u8>) -> Result<(), Refusal>
        ensures { Responds B.Bus U.Unit self.old self.new (load pairs program.items) (done_of result) }
    {
        if !(1..=4096).contains(&program.len()) {
            return Err(Refusal::ProgramLength);
        }
        if !(1..=8).contains(&pairs) {
            return Err(Refusal::PairsRange);
        }
        self.machine.core = Core::new(pairs);
        self.machine.program = program;
        Ok(())
    }

    // Goes from byte 0, in no handler.
    pub fn start(&mut self) -> Result<(), Refusal>
        ensures { Responds B.Bus U.Unit self.old self.new start (done_of result) }
    {
        if self.machine.program.is_empty() {
            return Err(Refusal::NoProgram);
        }
        self.machine.core.pc = 0;
        self.machine.core.handling = false;
        self.machine.core.mode = Mode::Going;
        Ok(())
    }

    // Latches an interrupt line.
    pub fn raise(&mut self, line: u8) -> Result<(), Refusal>
        ensures { Responds B.Bus U.Unit self.old self.new (raise line) (done_of result) }
    {
        if line > 15 {
            return Err(Refusal::LineRange);
        }
        self.machine.core.latched |= 1 << line;
        Ok(())
    }

    // Makes steps until one ends the run or the budget is spent.
    pub fn run(&mut self, budget: u32) -> Result<Run, Refusal>
        ensures { Responds B.Bus U.Unit self.old self.new (run budget) (ran_of result) }
    {
        if !(1..=1_000_000).contains(&budget) {
            return Err(Refusal::BudgetRange);
        }
        match self.machine.core.mode {
            Mode::Going | Mode::Waiting => Ok(self.machine.run(budget)),
            Mode::Idle | Mode::Ended | Mode::Faulted => Err(Refusal::NotRunning),
        }
    }

    // Puts an unheld byte into a cell.
    pub fn put(&mut self, address: u16, byte: u8) -> Result<(), Refusal>
        ensures { Responds B.Bus U.Unit self.old self.new (put address byte) (done_of result) }
    {
        self.machine
            .bus
            .write(address, Marked::unheld(byte))
            .map_err(|_| Refusal::AbsentCell)
    }

    // Opens an interval over plain cells.
    pub fn open(&self, seal: Seal, first: u16, count: u16) -> Result<Interval, Refusal>
        ensures { Responds B.Bus U.Unit self.now self.now (opening seal first count) (opened_of result) }
    {
        if !(1..=256).contains(&count) || first as u32 + count as u32 > 65536 {
            return Err(Refusal::IntervalRange);
        }
        let interval = Interval { seal, first, count };
        interval.check(&self.machine.bus)?;
        Ok(interval)
    }

    // Puts a byte into a cell of an interval, held if the interval is sealed.
    pub fn entry(&mut self, interval: &Interval, offset: u16, byte: u8) -> Result<(), Refusal>
        ensures { Responds B.Bus U.Unit self.old self.new (entry interval.now offset byte) (done_of result) }
    {
        if offset >= interval.count {
            return Err(Refusal::OffsetRange);
        }
        let value = Marked {
            byte,
            mark: interval.seal.into(),
        };
        interval.enter(&mut self.machine.bus, offset, value)
    }

    // Lifts all cells of an interval and uses it up; a refusal hands it back.
    pub fn close(&mut self, interval: Interval) -> Result<(), Unclosed>
        ensures { Responds B.Bus U.Unit self.old self.new (close interval) (closed_of result) }
    {
        // No map_err: its closure would take the interval, which is still to be lifted.
        match interval.check(&self.machine.bus) {
            Ok(()) => {
                interval.lift(&mut self.machine.bus);
                Ok(())
            }
            Err(refusal) => Err(Unclosed { refusal, interval }),
        }
    }

    // The byte of a cell, if it is not held.
    pub fn cell(&self, address: u16) -> Result<u8, Refusal>
        ensures { Responds B.Bus U.Unit self.now self.now (cell address) (byte_of result) }
    {
        let value = self
            .machine
            .bus
            .read(address)
            .map_err(|_| Refusal::AbsentCell)?;
        value.shown().ok_or(Refusal::HeldByte)
    }

    // The byte of a register, if it is not held. The rules ask for registers by number: 16 is the status register.
    pub fn register(&self, number: u8) -> Result<u8, Refusal>
        ensures { Responds B.Bus U.Unit self.now self.now (register number) (byte_of result) }
    {
        let asked = match number {
            0..=15 => self.machine.core.register(number),
            16 => self.machine.core.status_byte(),
            _ => return Err(Refusal::RegisterRange),
        };
        asked.shown().ok_or(Refusal::HeldByte)
    }

    // Where the terminal stands.
    pub fn status(&self) -> Standing
        ensures { Responds B.Bus U.Unit self.now self.now status (stands_of result) }
    {
        let core = &self.machine.core;
        Standing {
            mode: core.mode,
            pc: core.pc,
            sp: core.sp,
            enabled: core.enabled,
            latched: core.latched,
            handling: core.handling,
        }
    }

    // Makes a call of a list.
    fn respond(&mut self, call: Call<'_>) -> Result<Answer, Unmade>
        ensures { Responds B.Bus U.Unit self.old self.new (call_of call.entry) (answer_of result) }
    {
        match call {
            Call::Load(pairs, program) => self.load(pairs, program)?,
            Call::Start => self.start()?,
            Call::Raise(line) => self.raise(line)?,
            Call::Run(budget) => return Ok(Answer::Ran(self.run(budget)?)),
            Call::Put(address, byte) => self.put(address, byte)?,
            Call::Open(seal, first, count) => {
                return Ok(Answer::Opened(self.open(seal, first, count)?));
            }
            Call::Entry(interval, offset, byte) => self.entry(interval, offset, byte)?,
            Call::Close(interval) => self.close(interval)?,
            Call::Cell(address) => return Ok(Answer::Byte(self.cell(address)?)),
            Call::Register(number) => return Ok(Answer::Byte(self.register(number)?)),
            Call::Status => return Ok(Answer::Stands(self.status())),
        }
        Ok(Answer::Done)
    }

    // Makes a list of calls and answers each. Room for all answers is found first, so want of memory changes nothing.
    pub fn perform(
        &mut self,
        heap: Global,
        calls: Vec<Call<'_>>,
    ) -> Result<Vec<Result<Answer, Unmade>>, AllocError>
        ensures answers { IfOk result (λ v. map answer_of v.items ≡ (performed_of B.Bus U.Unit self.old calls.entry.items).0) }
        ensures leaves { terminal_of B.Bus U.Unit self.new ≡ (if is_ok result then (performed_of B.Bus U.Unit self.old calls.entry.items).1 else terminal_of B.Bus U.Unit self.old) }
        ensures hides { B.Bus.hidden self.new.machine.bus ≡ B.Bus.hidden self.old.machine.bus }
        ensures keeps { U.Unit.codes self.new.machine.unit ≡ U.Unit.codes self.old.machine.unit }
        ensures noninterference { Noninterference (service U.Unit self.old.machine.unit) }
        ensures transparency { Transparency (service U.Unit self.old.machine.unit) }
    {
        let mut answers = Vec::with_capacity(heap, calls.len())?;
        for call in calls {
            answers.push_reserved(self.respond(call));
        }
        Ok(answers)
    }
}
