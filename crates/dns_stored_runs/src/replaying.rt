//! Runs of a script over the master files of a configuration.
use crate::refusing::refuse_each;
use crate::{Ended, Words, started};
use dns_commands::{Folder, Run, explain_replay, file, master_files, octets_in, replay};
use dns_configuration::{DONE, File};
use dns_memory::Heap;
use std::io;

/// What is done with a script.
#[derive(Clone, Copy)]
pub(crate) enum Doing {
    /// It is run.
    Runs,
    /// It is explained why it is refused.
    Explains,
    /// It is run once for each of its allocations, which is refused.
    RefusesMemory,
}

/// A configuration and its master files.
#[derive(Clone, Copy)]
pub(crate) struct Given<'a> {
    pub(crate) config: &'a File<'a>,
    pub(crate) files: &'a [File<'a>],
}

/// Runs a script.
pub(crate) fn run(
    rt: &HostRuntime,
    heap: Heap,
    given: Given<'_>,
    script: &File<'_>,
) -> io::Result<Ended> {
    let mut over = Run {
        alloc: rt.alloc(),
        heap,
        devices: (),
        explain: false,
        out: Vec::new(rt.alloc()),
        err: Vec::new(rt.alloc()),
    };
    let status = replay(&mut over, given.config, given.files, script);
    Ok(Ended {
        printed: over.out,
        told: over.err,
        status,
    })
}

/// Explains why a script is refused.
fn explain(rt: &HostRuntime, heap: Heap, given: Given<'_>, script: &File<'_>) -> io::Result<Ended> {
    let mut ended = started(rt, DONE);
    explain_replay(
        rt.alloc(),
        heap,
        given.config,
        given.files,
        script,
        &mut ended.told,
    )?;
    Ok(ended)
}

/// Does that with the script and the configuration of a folder.
pub(crate) fn over_files(
    rt: &HostRuntime,
    heap: Heap,
    words: Words<'_>,
    doing: Doing,
) -> io::Result<Ended> {
    let config = octets_in(rt, words.first, words.second)?;
    let script = octets_in(rt, words.first, words.third)?;
    let (config, script) = (file(words.second, &config), file(words.third, &script));
    let mut folder = Folder {
        rt,
        name: words.first,
    };
    let texts = master_files(rt.alloc(), heap, &mut folder, &config)?;
    let mut files = Vec::new(rt.alloc());
    for (path, text) in &texts {
        files.push(file(path, text))?;
    }
    let given = Given {
        config: &config,
        files: &files,
    };
    match doing {
        Doing::Runs => run(rt, heap, given, &script),
        Doing::Explains => explain(rt, heap, given, &script),
        Doing::RefusesMemory => refuse_each(rt, heap, given, &script),
    }
}
