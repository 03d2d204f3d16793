//! The commands over the system: its files, its sockets and its streams.

use crate::command::{
    Checking, Diffing, Dumping, Fetching, Listing, Loading, Making, Replaying, Serving, Verifying,
};
use crate::commands::Commands;
use crate::explaining::Explainer;
use crate::lines::Lines;
use crate::logged_system::LoggedSystem;
use crate::record_file::RecordFile;
use crate::tasks::{
    FetchRun, ServeRun, check_file, check_files, diff_file, dump_file, fetch_zone, history_file,
    init_files, load_files, migrate_file, replay_files, serve_file, verify_file,
};
use crate::terminal::Terminal;
use dns_commands::{Folder, Run};
use dns_configuration::{DONE, FAILED, REFUSED};
use dns_devices::Disk;
use dns_fetch::{Tcp, TcpSocket};
use dns_memory::Heap;
use dns_sectors::{DiskFile, FileSectors};
use dns_service::{Host, Streams};
use std::io::{self, BufWriter, Write};

/// The device of a zone: a file of the system.
type Device = FileSectors<DiskFile>;

/// The system, and memory. Nothing that is proved says what the system does, so that its commands are known
/// by the functions of `tasks.rt` that they call.
#[derive(Clone, Copy)]
pub struct System<'a> {
    pub rt: &'a HostRuntime,
    pub heap: Heap,
}

impl<'a> System<'a> {
    /// The files of the system, by their paths.
    fn files(&self) -> Folder<'a> {
        Folder {
            rt: self.rt,
            name: "",
        }
    }

    /// What a command runs with: these devices, where it prints, and where it reports.
    fn run<F, W, E>(&self, explain: bool, devices: F, out: W, err: E) -> Run<F, W, E> {
        Run {
            alloc: self.rt.alloc(),
            heap: self.heap,
            devices,
            explain,
            out,
            err,
        }
    }

    fn explainer(&self) -> Explainer<'a> {
        Explainer {
            rt: self.rt,
            heap: self.heap,
        }
    }

    /// Explains, if it is wanted, why what a device keeps was not printed, and returns the exit status.
    fn explain_looked(&self, words: (&str, &str), explain: bool, status: u8) -> io::Result<u8> {
        if explain && status == REFUSED {
            self.explainer().origin(words.0, words.1)?;
        }
        if explain && status == FAILED {
            self.explainer().devices(words.0, Some(words.1))?;
        }
        Ok(status)
    }
}

impl Commands for System<'_> {
    ghost has_run = { λ _ _ _ _. Unit {0} };

    fn check(&mut self, words: Checking<'_>, explain: bool) -> io::Result<u8> {
        let out = BufWriter::new(self.rt.alloc(), io::writer(self.rt))?;
        let mut run = self.run(explain, (), out, self.rt.stderr());
        let status = check_file(&mut self.files(), &mut run, words)?;
        run.out.flush()?;
        if explain && status == REFUSED {
            self.explainer().check(words)?;
        }
        Ok(status)
    }

    fn check_configuration(&mut self, config: &str, explain: bool) -> io::Result<u8> {
        let out = BufWriter::new(self.rt.alloc(), io::writer(self.rt))?;
        let mut run = self.run(explain, (), out, self.rt.stderr());
        let status = check_files(&mut self.files(), &mut run, config)?;
        run.out.flush()?;
        if explain && status == REFUSED {
            self.explainer().files(config)?;
        }
        if explain && status == DONE {
            self.explainer().warnings(config)?;
        }
        Ok(status)
    }

    fn replay(&mut self, words: Replaying<'_>, explain: bool) -> io::Result<u8> {
        let out = BufWriter::new(self.rt.alloc(), io::writer(self.rt))?;
        let mut run = self.run(explain, (), out, self.rt.stderr());
        let status = replay_files(&mut self.files(), &mut run, words)?;
        run.out.flush()?;
        if explain && status == REFUSED {
            self.explainer().script(words)?;
        }
        Ok(status)
    }

    fn init(&mut self, words: Making<'_>, explain: bool) -> io::Result<u8> {
        let mut run = self.run(
            explain,
            Disk(self.rt),
            io::writer(self.rt),
            self.rt.stderr(),
        );
        let status = init_files::<_, Device, _, _, _>(&mut self.files(), &mut run, words)?;
        if explain && status == REFUSED {
            match words.origin {
                Some(origin) => self.explainer().zone(words.config, origin)?,
                None => self.explainer().files(words.config)?,
            }
        }
        if explain && status == FAILED {
            self.explainer().unmade(words.config, words.origin)?;
        }
        Ok(status)
    }

    fn dump(&mut self, words: Dumping<'_>, explain: bool) -> io::Result<u8> {
        let out = BufWriter::new(self.rt.alloc(), io::writer(self.rt))?;
        let mut run = self.run(explain, Disk(self.rt), out, self.rt.stderr());
        let status = dump_file::<_, Device, _, _, _>(&mut self.files(), &mut run, words)?;
        run.out.flush()?;
        self.explain_looked((words.config, words.origin), explain, status)
    }

    fn diff(&mut self, words: Diffing<'_>, explain: bool) -> io::Result<u8> {
        let out = BufWriter::new(self.rt.alloc(), io::writer(self.rt))?;
        let mut run = self.run(explain, Disk(self.rt), out, self.rt.stderr());
        let status = diff_file::<_, Device, _, _, _>(&mut self.files(), &mut run, words)?;
        run.out.flush()?;
        self.explain_looked((words.config, words.origin), explain, status)
    }

    fn history(&mut self, words: Listing<'_>, explain: bool) -> io::Result<u8> {
        let out = BufWriter::new(self.rt.alloc(), io::writer(self.rt))?;
        let mut run = self.run(explain, Disk(self.rt), out, self.rt.stderr());
        let status = history_file::<_, Device, _, _, _>(&mut self.files(), &mut run, words)?;
        run.out.flush()?;
        self.explain_looked((words.config, words.origin), explain, status)
    }

    fn load(&mut self, words: Loading<'_>, explain: bool) -> io::Result<u8> {
        let out = BufWriter::new(self.rt.alloc(), io::writer(self.rt))?;
        let mut run = self.run(explain, Disk(self.rt), out, self.rt.stderr());
        let status = load_files::<_, Device, _, _, _>(&mut self.files(), &mut run, words)?;
        run.out.flush()?;
        if explain && status == REFUSED {
            self.explainer().zone(words.config, words.origin)?;
        }
        if explain && status == FAILED {
            self.explainer().devices(words.config, Some(words.origin))?;
        }
        Ok(status)
    }

    fn migrate(&mut self, config: &str, explain: bool) -> io::Result<u8> {
        let mut run = self.run(
            explain,
            Disk(self.rt),
            io::writer(self.rt),
            self.rt.stderr(),
        );
        let status = migrate_file::<_, Device, _, _, _>(&mut self.files(), &mut run, config)?;
        if explain && status == REFUSED {
            self.explainer().configuration(config)?;
        }
        if explain && status == FAILED {
            self.explainer().devices(config, None)?;
        }
        Ok(status)
    }

    fn verify(&mut self, words: Verifying<'_>, explain: bool) -> io::Result<u8> {
        let mut run = self.run(
            explain,
            Disk(self.rt),
            io::writer(self.rt),
            self.rt.stderr(),
        );
        let status = verify_file::<_, Device, _, _, _>(&mut self.files(), &mut run, words)?;
        if explain && status == REFUSED {
            match words.origin {
                Some(origin) => self.explainer().origin(words.config, origin)?,
                None => self.explainer().configuration(words.config)?,
            }
        }
        if explain && status == FAILED {
            self.explainer().devices(words.config, words.origin)?;
        }
        Ok(status)
    }

    fn serve(&mut self, words: Serving<'_>, explain: bool) -> io::Result<u8> {
        let (rt, heap) = (self.rt, self.heap);
        let logged = LoggedSystem {
            rt: *rt,
            level: words.log_level,
        };
        let host = Host {
            alloc: rt.alloc(),
            heap,
            rt: &logged,
        };
        let streams = Streams {
            out: Lines::to_output(rt),
            err: Lines::to_errors(rt),
            record: RecordFile::new(rt, words.record),
        };
        let mut run = ServeRun {
            host,
            explain,
            devices: Disk(rt),
            streams,
        };
        let status = serve_file::<_, Device, _, _, _, _, _>(&mut self.files(), &mut run, words)?;
        if explain && status == REFUSED {
            self.explainer().configuration(words.config)?;
        }
        if explain && status == FAILED {
            self.explainer().unserved(words.config)?;
        }
        Ok(status)
    }

    fn fetch(&mut self, words: Fetching<'_>, explain: bool) -> io::Result<u8> {
        let (rt, heap, seconds) = (self.rt, self.heap, words.seconds);
        let mut run = FetchRun {
            heap,
            servers: Tcp { heap, rt, seconds },
            explain,
            watch: Terminal::new(rt),
            out: BufWriter::new(rt.alloc(), io::writer(rt))?,
            err: rt.stderr(),
        };
        let status = fetch_zone::<_, TcpSocket<'_, HostRuntime>, _, _, _, _>(
            &mut self.files(),
            &mut run,
            words,
        )?;
        run.out.flush()?;
        if explain && status == REFUSED {
            self.explainer().held(words)?;
        }
        Ok(status)
    }
}
