// What a run prints: one line for each answer and each refusal, and how many there were.
use crate::answer::{Answer, Line};
use crate::fault::Fault;
use crate::stop::Stop;
use kernel::fault::ModelFault;
use kernel::memory::Entry;
use std::io;

#[derive(Drop)]
pub struct Console<'a> {
    rt: &'a HostRuntime,
    says: bool,
    accepted: u64,
    refused: u64,
}

impl<'a> Console<'a> {
    // With `says`, standard error tells what each refusal means.
    pub fn new(rt: &'a HostRuntime, says: bool) -> Console<'a> {
        Console {
            rt,
            says,
            accepted: 0,
            refused: 0,
        }
    }

    pub fn runtime(&self) -> &'a HostRuntime {
        self.rt
    }

    fn accept(&mut self) {
        self.accepted = self.accepted.saturating_add(1);
    }

    // Tells the answer to a question, with the chain that belongs to it.
    pub fn answer(&mut self, answer: Answer, chain: &[Entry]) -> Result<(), Stop> {
        self.accept();
        self.rt.println(Line { answer, chain })?;
        Ok(())
    }

    pub fn refuse(&mut self, fault: ModelFault) -> Result<(), Stop> {
        self.refused = self.refused.saturating_add(1);
        let number = fault.number();
        let place = fault.place();
        println!(self.rt; "no {number} at {place}")?;
        if self.says {
            eprintln!(self.rt; "no {number}: {fault}")?;
        }
        Ok(())
    }

    // Tells what became of a command that prints nothing when it is accepted.
    pub fn tell(&mut self, outcome: Result<(), Fault>) -> Result<(), Stop> {
        match outcome {
            Ok(()) => {
                self.accept();
                Ok(())
            }
            Err(Fault::Refused(fault)) => self.refuse(fault),
            Err(Fault::BadLine(expected)) => Err(Stop::BadLine(expected)),
        }
    }

    // The last line of a run.
    pub fn finish(&self) -> io::Result<()> {
        let accepted = self.accepted;
        let refused = self.refused;
        println!(self.rt; "done accepted {accepted} refused {refused}")
    }
}
