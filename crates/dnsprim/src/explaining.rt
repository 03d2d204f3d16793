//! What `--explain` adds after an error: why. The files are read once more for it.

use crate::command::{Checking, Fetching, Replaying};
use crate::tasks::files_in;
use dns_commands::{
    Folder, Index, explain_check, explain_devices, explain_origin, explain_other, explain_replay,
    explain_unmade, explain_unreadable, explain_unserved, file, is_file, master_files, octets,
    warn_of_configuration, zone_file,
};
use dns_configuration::File;
use dns_memory::Heap;
use std::{fs, io};

/// What explains errors on standard error.
#[derive(Clone, Copy)]
pub struct Explainer<'a> {
    pub rt: &'a HostRuntime,
    pub heap: Heap,
}

/// No file.
const NONE: File<'static> = File {
    path: "",
    octets: None,
};

impl Explainer<'_> {
    /// Tells why the system does not give a file, if it was not given.
    fn missing(&self, file: &File<'_>) -> io::Result<()> {
        if file.octets.is_some() {
            return Ok(());
        }
        let mut err = self.rt.stderr();
        match is_file(self.rt, file.path) {
            Ok(true) => {}
            Ok(false) => return explain_other(file.path, &mut err),
            Err(reason) => return explain_unreadable(file.path, &reason, &mut err),
        }
        match fs::read(self.rt, file.path) {
            Ok(_) => Ok(()),
            Err(reason) => explain_unreadable(file.path, &reason, &mut err),
        }
    }

    /// The master files of a configuration, each with its path.
    fn texts(&self, config: &File<'_>) -> io::Result<Vec<(String, Option<Vec<u8>>)>> {
        let mut folder = Folder {
            rt: self.rt,
            name: "",
        };
        master_files(self.rt.alloc(), self.heap, &mut folder, config)
    }

    /// Why a configuration, one of these master files of it, or a script over it was refused.
    fn settings(&self, config: &File<'_>, files: &[File<'_>], script: &File<'_>) -> io::Result<()> {
        self.missing(config)?;
        for file in files {
            self.missing(file)?;
        }
        let mut err = self.rt.stderr();
        explain_replay(self.rt.alloc(), self.heap, config, files, script, &mut err)
    }

    /// Why `check` refused a master file.
    pub fn check(&self, words: Checking<'_>) -> io::Result<()> {
        let text = octets(self.rt, words.file)?;
        let file = file(words.file, &text);
        self.missing(&file)?;
        explain_check(self.heap, &file, words.origin, &mut self.rt.stderr())
    }

    /// Why a configuration or one of its master files was refused.
    pub fn files(&self, config: &str) -> io::Result<()> {
        let text = octets(self.rt, config)?;
        let config = file(config, &text);
        let texts = self.texts(&config)?;
        let files = files_in(self.rt.alloc(), &texts)?;
        self.settings(&config, &files, &NONE)
    }

    /// What a configuration and its master files have that is seldom meant.
    pub fn warnings(&self, config: &str) -> io::Result<()> {
        let text = octets(self.rt, config)?;
        let config = file(config, &text);
        let texts = self.texts(&config)?;
        let files = files_in(self.rt.alloc(), &texts)?;
        let mut err = self.rt.stderr();
        warn_of_configuration::<Index, _>(self.rt.alloc(), self.heap, &config, &files, &mut err)
    }

    /// Why `replay` refused a configuration, a master file or a script.
    pub fn script(&self, words: Replaying<'_>) -> io::Result<()> {
        let (text, script_text) = (
            octets(self.rt, words.config)?,
            octets(self.rt, words.script)?,
        );
        let (config, script) = (file(words.config, &text), file(words.script, &script_text));
        let texts = self.texts(&config)?;
        let files = files_in(self.rt.alloc(), &texts)?;
        self.missing(&script)?;
        self.settings(&config, &files, &script)
    }

    /// Why a configuration was refused, whatever its master files are.
    pub fn configuration(&self, config: &str) -> io::Result<()> {
        let text = octets(self.rt, config)?;
        self.settings(&file(config, &text), &[], &NONE)
    }

    /// Why a configuration, or the name of a zone, was refused.
    pub fn origin(&self, config: &str, origin: &str) -> io::Result<()> {
        let text = octets(self.rt, config)?;
        let config = file(config, &text);
        self.settings(&config, &[], &NONE)?;
        let mut err = self.rt.stderr();
        explain_origin(self.rt.alloc(), self.heap, &config, origin, &mut err)
    }

    /// Why a configuration, the name of a zone, or its master file was refused.
    pub fn zone(&self, config: &str, origin: &str) -> io::Result<()> {
        let text = octets(self.rt, config)?;
        let given = file(config, &text);
        let texts = self.texts(&given)?;
        let files = files_in(self.rt.alloc(), &texts)?;
        match zone_file(self.rt.alloc(), self.heap, &given, &files, origin) {
            Ok(Some(file)) => {
                self.missing(file)?;
                explain_check(self.heap, file, origin, &mut self.rt.stderr())
            }
            _ => self.origin(config, origin),
        }
    }

    /// Why a device can't be had, if one can't.
    pub fn devices(&self, config: &str, origin: Option<&str>) -> io::Result<()> {
        let text = octets(self.rt, config)?;
        let config = file(config, &text);
        let mut err = self.rt.stderr();
        let _found = explain_devices(self.rt, self.heap, &config, origin, &mut err)?;
        Ok(())
    }

    /// Why a device can't be made, if one can't.
    pub fn unmade(&self, config: &str, origin: Option<&str>) -> io::Result<()> {
        let text = octets(self.rt, config)?;
        let config = file(config, &text);
        explain_unmade(self.rt, self.heap, &config, origin, &mut self.rt.stderr())
    }

    /// Why a device or an address can't be had, if one can't.
    pub fn unserved(&self, config: &str) -> io::Result<()> {
        let text = octets(self.rt, config)?;
        let config = file(config, &text);
        explain_unserved(self.rt, self.heap, &config, &mut self.rt.stderr())
    }

    /// Why `fetch` refused a master file, or the name of a zone.
    pub fn held(&self, words: Fetching<'_>) -> io::Result<()> {
        let Some(path) = words.since else {
            return explain_check(self.heap, &NONE, words.origin, &mut self.rt.stderr());
        };
        let text = octets(self.rt, path)?;
        let file = file(path, &text);
        self.missing(&file)?;
        explain_check(self.heap, &file, words.origin, &mut self.rt.stderr())
    }
}
