//! Executes lists of commands.
ghost use Rattle.std.specs.Prelude.{◌≡◌, ◌≤◌, [], length, false, OnErr, IfOk};
ghost use Rattle.std.specs.Vec.{vec_capacity};
ghost use Rattle.sector_disk.specs.Sectors.{Throughout};
ghost use Rattle.recover.specs.Moments.{RunLeaves};
ghost use Rattle.recover.specs.Applying.{IsRun};

use crate::replies::{Reply, Run};
use crate::sessions::Session;
use command_core::Command;
use sector_disk::{OutOfMemory, Sectors};
use std::alloc::Global;

impl<D: Sectors> Session<D> {
    /// Executes commands one after another, and answers each as `apply` does. If there is no memory for the
    /// answers, this is reported before the first command.
    ///
    /// A crash at any moment leaves the state after a prefix of the kept commands: all that were acknowledged
    /// by then, and at most one more.
    pub fn run(&mut self, alloc: Global, commands: Vec<Command>) -> Result<Run, OutOfMemory>
        ensures refused { OnErr result (self.new ≡ self.old) }
        ensures replies { IfOk result
            (λ run. IsRun D.len D.calls D.faults D.honest D.clock D.possible_since D.possible
            self.old commands.items run.replies.items self.new) }
        ensures moments { IfOk result (λ run. self.old.is_broken ≡ false → D.honest self.new.device
            → Throughout D.clock D.possible_since self.old.device self.new.device
            (RunLeaves self.old.state commands.items run.replies.items)) }
    {
        let replies = Vec::with_capacity(alloc, commands.len())?;
        Ok(self.run_into(alloc, commands, replies))
    }

    // Executes commands like `run`. The caller has reserved room for the answers.
    pub(crate) fn run_into(
        &mut self,
        alloc: Global,
        commands: Vec<Command>,
        replies: Vec<Reply>,
    ) -> Run
        requires empty { replies.items ≡ [] }
        requires room { length commands.items ≤ vec_capacity replies }
        ensures replies { IsRun D.len D.calls D.faults D.honest D.clock D.possible_since D.possible
            self.old commands.items result.replies.items self.new }
        ensures moments { self.old.is_broken ≡ false → D.honest self.new.device
            → Throughout D.clock D.possible_since self.old.device self.new.device
            (RunLeaves self.old.state commands.items result.replies.items) }
    {
        self.images_recover_to_the_state();
        let mut replies = replies;
        for command in commands {
            replies.push(self.apply(alloc, command)).unwrap();
        }
        Run { replies }
    }
}
