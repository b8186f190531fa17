//! Runs.

use crate::line::{Line, parse};
use crate::refusal::{Refusal, reason};
use crate::scheduler::{CommandError, Place, Scheduler};
use arena_ptr::{PtrKey, ToolPtr};
use chain_arena::ChainArena;
use chain_traits::ChainArenaTrait;
use line_programs::{LineSession, RunError, run_lines};
use run_queues::Entry;
use std::alloc::{AllocError, Global};
use std::io::{Read, Write};

#[derive(Drop)]
struct Session<P: PtrKey, A: ChainArenaTrait<P, Entry<Place>> + Drop> {
    scheduler: Scheduler<P, A>,
    lines: u64,
    ticks: u64,
    alloc: Global,
}

type ToolSession = Session<ToolPtr, ChainArena<ToolPtr, Entry<Place>>>;

impl<P: PtrKey, A: ChainArenaTrait<P, Entry<Place>> + Drop> Session<P, A> {
    fn new(alloc: Global) -> Result<Self, AllocError> {
        Ok(Session {
            scheduler: Scheduler::new(alloc)?,
            lines: 0,
            ticks: 0,
            alloc,
        })
    }

    fn execute(&mut self, line: Line<'_>) -> Result<(), CommandError> {
        match line {
            Line::Blank | Line::Run(_) => Ok(()),
            Line::Spawn(name, priority) => self.scheduler.spawn(name, priority),
            Line::Block(name, event) => self.scheduler.block(name, event),
            Line::Wake(event) => Ok(self.scheduler.wake(event)?),
            Line::Kill(name) => Ok(self.scheduler.kill(name)?),
        }
    }

    fn refuse<W: Write>(&self, refusal: Refusal, writer: &mut W) -> Result<(), RunError> {
        let text = format!(in self.alloc; "line {}: {}\n", self.lines, reason(refusal))?;
        writer.write_all(text.as_bytes()).or(Err(RunError::Write))
    }

    fn run_turns<W: Write>(&mut self, turns: u32, writer: &mut W) -> Result<(), RunError> {
        for _ in 0..turns {
            self.ticks = self.ticks.saturating_add(1);
            let name = self.scheduler.turn().unwrap_or("idle");
            let text = format!(in self.alloc; "{} {}\n", self.ticks, name)?;
            writer.write_all(text.as_bytes()).or(Err(RunError::Write))?;
        }
        Ok(())
    }
}

impl<P: PtrKey, A: ChainArenaTrait<P, Entry<Place>> + Drop> LineSession for Session<P, A> {
    fn end_line<W: Write>(&mut self, line: &[u8], writer: &mut W) -> Result<(), RunError> {
        self.lines = self.lines.saturating_add(1);
        match parse(line) {
            Ok(Line::Run(turns)) => self.run_turns(turns, writer),
            Ok(line) => match self.execute(line) {
                Ok(()) => Ok(()),
                Err(CommandError::Refused(refusal)) => self.refuse(refusal, writer),
                Err(CommandError::Memory) => Err(RunError::Memory),
            },
            Err(refusal) => self.refuse(refusal, writer),
        }
    }

    /// Writes the turns of each task.
    fn finish<W: Write>(&mut self, writer: &mut W) -> Result<(), RunError> {
        for task in self.scheduler.tasks() {
            let text = format!(in self.alloc; "{} {}\n", task.name(), task.turns())?;
            writer.write_all(text.as_bytes()).or(Err(RunError::Write))?;
        }
        Ok(())
    }
}

pub fn run<R: Read, W: Write>(
    alloc: Global,
    reader: &mut R,
    writer: &mut W,
) -> Result<(), RunError> {
    let mut session: ToolSession = Session::new(alloc)?;
    run_lines(alloc, &mut session, reader, writer)
}
