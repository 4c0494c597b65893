// The core with its program, its bus and its unit.
ghost use Rattle.std.specs.Prelude.{◌≡◌, ◌+◌, ◌%◌, ◌^◌, ◌<◌, ◌≤◌, OnErr};
ghost use Rattle.cpu.specs.Faults.{or_stop};
ghost use Rattle.cpu.specs.Laws.{RunLaws};
ghost use Rattle.cpu.specs.Machines.{state_of, service, Keeps, stepped_of, effect_told, state_left, ran_of, attempted, placed, Turned};
ghost use Rattle.cpu.specs.Runs.{run};
ghost use Rattle.cpu.specs.Steps.{fetched, cycles_of, effect, performed, step};

use super::faults::{Cause, Fault};
use super::state::{Core, Mode};
use buses::bus::Bus;
use isa::{Instruction, decode};
use units::unit::{Status, Unit};

#[derive(Drop)]
pub struct Machine<B, U> {
    pub core: Core,
    pub program: Vec<u8>,
    pub bus: B,
    pub unit: U,
}

// A step that was made: its cycles, and the byte that it may have said.
#[derive(Clone, Copy)]
pub struct Made {
    pub cycles: u16,
    pub said: Option<u8>,
}

// The place that many bytes on; byte 0 follows byte 4,095.
fn after(pc: u16, bytes: u16) -> u16
    ensures { result ≡ (pc + bytes) % 4096 }
{
    pc.wrapping_add(bytes) % 4096
}

// The instruction at a place of the program.
fn fetch(program: &[u8], pc: u16) -> Result<Instruction, Cause>
    ensures { or_stop result ≡ fetched program.now pc }
{
    let first = program.get(pc as usize).copied();
    let second = program.get(after(pc, 1) as usize).copied();
    decode(first, second).map_err(Cause::Word)
}

// The cycles of an instruction, its wait apart.
fn cycles(instruction: Instruction) -> u16
    ensures { result ≡ cycles_of instruction }
{
    match instruction {
        Instruction::Str | Instruction::Lsr | Instruction::Hlt | Instruction::Rti => 1,
        Instruction::Psh(_) | Instruction::Pop(_) => 1,
        _ => 2,
    }
}

// How a run ended.
#[derive(Clone, Copy)]
pub enum Ending {
    Said(u8),
    Ended,
    Spent,
    Waiting,
    Fault(Fault),
}

// What a run answers.
#[derive(Clone, Copy)]
pub struct Run {
    pub steps: u32,
    pub cycles: u64,
    pub ending: Ending,
}

impl<B: Bus, U: Unit> Machine<B, U> {
    // Does an instruction, pc being already that of the next one.
    fn execute(&mut self, instruction: Instruction) -> Result<Made, Cause>
        ensures told { or_stop result ≡ effect_told instruction (effect (service U.Unit self.old.unit) instruction (state_of B.Bus U.Unit self.old)) }
        ensures state { state_of B.Bus U.Unit self.new ≡ state_left (state_of B.Bus U.Unit self.old) (effect (service U.Unit self.old.unit) instruction (state_of B.Bus U.Unit self.old)) }
        ensures keeps { Keeps B.Bus U.Unit self.old self.new }
    {
        let mut made = Made {
            cycles: cycles(instruction),
            said: None,
        };
        match instruction {
            Instruction::Mvs(top) => self.core.mvs(top),
            Instruction::Mvv(handler, vector) => self.core.mvv(handler, vector),
            Instruction::Jmp(target) => self.core.pc = target,
            Instruction::Jsr(target) => self.core.jsr(&mut self.bus, target)?,
            Instruction::Branch(flag, target) => self.core.branch(flag, target)?,
            Instruction::Mvi(byte, dst) => self.core.mvi(byte, dst),
            Instruction::Alu(op, src, dst) => self.core.alu(op, src, dst),
            Instruction::Adi(amount, dst) => self.core.sum_with_amount(alu::adi, amount, dst),
            Instruction::Sbi(amount, dst) => self.core.sum_with_amount(alu::sbi, amount, dst),
            Instruction::Mov(src, dst) => self.core.mov(src, dst),
            Instruction::Ldb(pair, dst) => self.core.ldb(&self.bus, pair, dst)?,
            Instruction::Lpb(pair, dst) => {
                self.core.ldb(&self.bus, pair, dst)?;
                self.core.advance(pair);
            }
            Instruction::Stb(src, pair) => self.core.stb(&mut self.bus, src, pair)?,
            Instruction::Spb(src, pair) => {
                self.core.stb(&mut self.bus, src, pair)?;
                self.core.advance(pair);
            }
            Instruction::Ret => self.core.ret(&self.bus)?,
            Instruction::Str => {
                let value = self.core.status_byte();
                self.core.push(&mut self.bus, value)?;
            }
            Instruction::Lsr => {
                let value = self.core.pop(&self.bus)?;
                self.core.status = Status::from(value);
            }
            Instruction::Rie(pair) => self.core.rie(pair),
            Instruction::Sie(pair) => self.core.sie(pair)?,
            Instruction::Hlt => self.core.mode = Mode::Waiting,
            Instruction::Rti => self.core.rti()?,
            Instruction::Psh(src) => {
                let value = self.core.register(src);
                self.core.push(&mut self.bus, value)?;
            }
            Instruction::Pop(dst) => {
                let value = self.core.pop(&self.bus)?;
                self.core.put(dst, value);
            }
            Instruction::Sys(byte) => made.said = self.core.sys(byte),
            Instruction::Aluc(code, src, dst) => {
                made.cycles += self.core.aluc(&mut self.unit, code, src, dst)? as u16;
            }
        }
        Ok(made)
    }

    // Tries the instruction at pc; where it is stopped, pc may be that of the next one, and all else is as it was.
    fn attempt(&mut self) -> Result<Made, Cause>
        ensures performed { attempted (state_of B.Bus U.Unit self.old) (state_of B.Bus U.Unit self.new) result ≡ performed (service U.Unit self.old.unit) (state_of B.Bus U.Unit self.old) (fetched self.old.program.items self.old.core.pc) }
        ensures stopped { OnErr result (placed (state_of B.Bus U.Unit self.new) self.old.core.pc ≡ state_of B.Bus U.Unit self.old) }
        ensures keeps { Keeps B.Bus U.Unit self.old self.new }
    {
        let instruction = fetch(&self.program, self.core.pc)?;
        self.core.pc = after(self.core.pc, instruction.length() as u16);
        self.execute(instruction)
    }

    // One step, if it can be made: a line that is due is taken, or the instruction at pc runs, unless the core waits.
    pub fn step(&mut self) -> Result<Option<Made>, Fault>
        ensures stepped { stepped_of (state_of B.Bus U.Unit self.new) result ≡ step (service U.Unit self.old.unit) self.old.program.items (state_of B.Bus U.Unit self.old) }
        ensures keeps { Keeps B.Bus U.Unit self.old self.new }
    {
        if let Some(line) = self.core.due() {
            self.core.take(line);
            return Ok(Some(Made {
                cycles: 0,
                said: None,
            }));
        }
        if self.core.mode == Mode::Waiting {
            return Ok(None);
        }
        let pc = self.core.pc;
        match self.attempt() {
            Ok(made) => Ok(Some(made)),
            Err(cause) => {
                self.core.pc = pc;
                self.core.mode = Mode::Faulted;
                Err(Fault { cause, pc })
            }
        }
    }

    // One step of a run, and how the run ends, if it ends with it.
    fn turn(&mut self, run: &mut Run) -> Option<Ending>
        requires steps { run.old.steps + 1 < 2 ^ 32 }
        requires cycles { run.old.cycles + 65535 < 2 ^ 64 }
        ensures turned { Turned (service U.Unit self.old.unit) self.old.program.items (state_of B.Bus U.Unit self.old) run.old (state_of B.Bus U.Unit self.new) run.new result }
        ensures steps { run.new.steps ≤ run.old.steps + 1 }
        ensures cycles { run.new.cycles ≤ run.old.cycles + 65535 }
        ensures ending { run.new.ending ≡ run.old.ending }
        ensures keeps { Keeps B.Bus U.Unit self.old self.new }
    {
        let made = match self.step() {
            Ok(Some(made)) => made,
            Ok(None) => return Some(Ending::Waiting),
            Err(fault) => return Some(Ending::Fault(fault)),
        };
        run.steps += 1;
        run.cycles += made.cycles as u64;
        match made.said {
            Some(byte) => Some(Ending::Said(byte)),
            None if self.core.mode == Mode::Ended => Some(Ending::Ended),
            None => None,
        }
    }

    // Steps until one ends the run or the budget is spent.
    pub fn run(&mut self, budget: u32) -> Run
        ensures ran { ran_of (state_of B.Bus U.Unit self.new) result ≡ run (service U.Unit self.old.unit) self.old.program.items budget (state_of B.Bus U.Unit self.old) }
        ensures keeps { Keeps B.Bus U.Unit self.old self.new }
        ensures laws { RunLaws (service U.Unit self.old.unit) self.old.program.items }
    {
        let mut run = Run {
            steps: 0,
            cycles: 0,
            ending: Ending::Spent,
        };
        for _ in 0..budget {
            if let Some(ending) = self.turn(&mut run) {
                run.ending = ending;
                break;
            }
        }
        run
    }
}
