//! Which command is run, with which words.
ghost use Rattle.std.specs.Prelude.{ℕ, Bool, Result};
ghost use Rattle.std.specs.declared.io.Error.{Error};
ghost use Rattle.dnsprim.specs.Asked.{command_of};
ghost use Rattle.dnsprim.specs.declared.command.Asked.{Asked as StatedAsked};
ghost use Rattle.dnsprim.specs.declared.command.Task.TheVariants as task;

use crate::command::{
    Asked, Checking, Diffing, Dumping, Fetching, Listing, Loading, Making, Replaying, Serving,
    Task, Verifying,
};
use std::io;

/// The commands of the program, each of which returns its exit status, or an error of a stream or of memory.
pub trait Commands {
    /// This task was done, and ended so.
    ghost has_run: { Self → StatedAsked → Result ℕ Error → Self → Type 0 };

    fn check(&mut self, words: Checking<'_>, explain: bool) -> io::Result<u8>
        ensures { has_run self.old (command_of (task.Check words.entry) explain) result self.new };

    fn check_configuration(&mut self, config: &str, explain: bool) -> io::Result<u8>
        ensures { has_run self.old (command_of (task.CheckConfiguration config.entry) explain) result
            self.new };

    fn replay(&mut self, words: Replaying<'_>, explain: bool) -> io::Result<u8>
        ensures { has_run self.old (command_of (task.Replay words.entry) explain) result self.new };

    fn init(&mut self, words: Making<'_>, explain: bool) -> io::Result<u8>
        ensures { has_run self.old (command_of (task.Init words.entry) explain) result self.new };

    fn dump(&mut self, words: Dumping<'_>, explain: bool) -> io::Result<u8>
        ensures { has_run self.old (command_of (task.Dump words.entry) explain) result self.new };

    fn diff(&mut self, words: Diffing<'_>, explain: bool) -> io::Result<u8>
        ensures { has_run self.old (command_of (task.Diff words.entry) explain) result self.new };

    fn history(&mut self, words: Listing<'_>, explain: bool) -> io::Result<u8>
        ensures { has_run self.old (command_of (task.History words.entry) explain) result self.new };

    fn load(&mut self, words: Loading<'_>, explain: bool) -> io::Result<u8>
        ensures { has_run self.old (command_of (task.Load words.entry) explain) result self.new };

    fn migrate(&mut self, config: &str, explain: bool) -> io::Result<u8>
        ensures { has_run self.old (command_of (task.Migrate config.entry) explain) result self.new };

    fn verify(&mut self, words: Verifying<'_>, explain: bool) -> io::Result<u8>
        ensures { has_run self.old (command_of (task.Verify words.entry) explain) result self.new };

    fn serve(&mut self, words: Serving<'_>, explain: bool) -> io::Result<u8>
        ensures { has_run self.old (command_of (task.Serve words.entry) explain) result self.new };

    fn fetch(&mut self, words: Fetching<'_>, explain: bool) -> io::Result<u8>
        ensures { has_run self.old (command_of (task.Fetch words.entry) explain) result self.new };
}

/// Does the task that is asked for, and nothing else.
pub fn run<C: Commands>(commands: &mut C, asked: Asked<'_>) -> io::Result<u8>
    ensures { C.has_run commands.old asked.entry result commands.new }
{
    let explain = asked.explain;
    match asked.task {
        Task::Check(words) => commands.check(words, explain),
        Task::CheckConfiguration(config) => commands.check_configuration(config, explain),
        Task::Replay(words) => commands.replay(words, explain),
        Task::Init(words) => commands.init(words, explain),
        Task::Dump(words) => commands.dump(words, explain),
        Task::Diff(words) => commands.diff(words, explain),
        Task::History(words) => commands.history(words, explain),
        Task::Load(words) => commands.load(words, explain),
        Task::Migrate(config) => commands.migrate(config, explain),
        Task::Verify(words) => commands.verify(words, explain),
        Task::Serve(words) => commands.serve(words, explain),
        Task::Fetch(words) => commands.fetch(words, explain),
    }
}
