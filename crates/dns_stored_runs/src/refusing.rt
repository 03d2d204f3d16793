//! The run `refuse`: a script is run once for each of its allocations, which is refused.
//!
//! A refusal within an event leaves nothing of it, or a flush of an update or a checkpoint; a request is
//! answered SERVFAIL by a header alone (RFC 1035 section 4.1.1). So what is printed then is what the script
//! prints that has nothing, or `flush`, in place of that line, and that answer. Any other refusal ends the
//! run, and what was printed before it is the front of what the script prints.
use crate::replaying::{Given, run};
use crate::{Ended, started};
use dns_configuration::{DONE, FAILED, File, REFUSED};
use dns_memory::Heap;
use std::alloc::Global;
use std::io::{self, Write};

/// A line of a script, as far as it says what a refusal leaves of its event.
#[derive(Clone, Copy)]
struct Line<'a> {
    /// The command, and the address or the number after it.
    verb: &'a str,
    peer: &'a str,
    /// The digits of the message.
    digits: &'a str,
}

impl<'a> Line<'a> {
    fn new(text: &'a str) -> Line<'a> {
        let mut words = text.split(' ');
        Line {
            verb: words.next().unwrap_or(""),
            peer: words.next().unwrap_or(""),
            digits: words.next().unwrap_or(""),
        }
    }

    /// Whether it has an update: its opcode is 5 (RFC 2136 section 2.2).
    fn is_update(&self) -> bool {
        self.digits.get(4..6) == Some("28")
    }

    /// The lines that may be left of it.
    fn left(&self) -> &'static [&'static str] {
        match self.verb {
            "checkpoint" => &["flush"],
            _ if self.is_update() => &["", "flush"],
            _ => &[""],
        }
    }

    /// What is printed in its place, beside what the line prints that is left of it.
    fn answer(&self, alloc: Global) -> io::Result<String> {
        let flags = if self.is_update() { "a802" } else { "8002" };
        match (self.verb, self.digits.get(0..4)) {
            ("udp" | "tcp", Some(id)) => Ok(format!(in alloc;
                "{} {} {id}{flags}0000000000000000\n",
                self.verb, self.peer
            )?),
            _ => Ok(String::new(alloc)),
        }
    }
}

/// What is printed where memory is refused in the event of the line with that index.
#[derive(Drop)]
struct Without {
    line: usize,
    /// What the script prints up to the line that is left, that line's included.
    front: Vec<u8>,
    /// The answer.
    answer: String,
    /// What the script prints that has that line, whole.
    whole: Vec<u8>,
}

impl Without {
    /// Whether it is this that was printed. A refusal of what is no request has no answer.
    fn is(&self, printed: &[u8]) -> bool {
        if !printed.starts_with(&self.front) || !self.whole.starts_with(&self.front) {
            return false;
        }
        let end = &self.whole[self.front.len()..];
        let told = &printed[self.front.len()..];
        if !told.starts_with(self.answer.as_bytes()) {
            return false;
        }
        &told[self.answer.len()..] == end
    }
}

/// The script with another line in place of the one with that index, or what is up to that line of it.
fn with_line(
    alloc: Global,
    script: &str,
    at: usize,
    line: &str,
    goes_on: bool,
) -> io::Result<String> {
    let mut text = String::new(alloc);
    for (i, was) in script.lines().enumerate() {
        if i > at && !goes_on {
            break;
        }
        text.push_str(if i == at { line } else { was })?;
        text.push('\n')?;
    }
    Ok(text)
}

/// What a script prints.
fn printed_by(
    rt: &HostRuntime,
    heap: Heap,
    given: Given<'_>,
    path: &str,
    script: &str,
) -> io::Result<Vec<u8>> {
    let script = File {
        path,
        octets: Some(script.as_bytes()),
    };
    Ok(run(rt, heap, given, &script)?.printed)
}

/// A script, and the path that its errors name.
#[derive(Clone, Copy)]
struct Script<'a> {
    path: &'a str,
    text: &'a str,
}

/// What is printed where memory is refused in the event of the line with that index, and this line is left.
fn event_without(
    rt: &HostRuntime,
    heap: Heap,
    given: Given<'_>,
    script: Script<'_>,
    at: usize,
    left: &str,
) -> io::Result<Without> {
    let line = Line::new(script.text.lines().nth(at).unwrap_or(""));
    let front = with_line(rt.alloc(), script.text, at, left, false)?;
    let whole = with_line(rt.alloc(), script.text, at, left, true)?;
    Ok(Without {
        line: at,
        front: printed_by(rt, heap, given, script.path, &front)?,
        answer: line.answer(rt.alloc())?,
        whole: printed_by(rt, heap, given, script.path, &whole)?,
    })
}

/// What is printed where no memory is refused, and where it is in the event of each line.
#[derive(Drop)]
struct Expected {
    plain: Vec<u8>,
    without: Vec<Without>,
}

impl Expected {
    fn new(
        rt: &HostRuntime,
        heap: Heap,
        given: Given<'_>,
        path: &str,
        script: &str,
    ) -> io::Result<Expected> {
        let mut expected = Expected {
            plain: printed_by(rt, heap, given, path, script)?,
            without: Vec::new(rt.alloc()),
        };
        let of = Script { path, text: script };
        for (at, line) in script.lines().enumerate() {
            for left in Line::new(line).left() {
                let one = event_without(rt, heap, given, of, at, left)?;
                expected.without.push(one)?;
            }
        }
        Ok(expected)
    }

    /// Whether a run ended by a refusal that fell in no event.
    fn has_ended(&self, ended: &Ended) -> bool {
        ended.status == FAILED && self.plain.starts_with(&ended.printed)
    }

    /// The index of the line without whose event a run went on, if it did.
    fn left_out(&self, ended: &Ended) -> Option<usize> {
        if ended.status != DONE {
            return None;
        }
        let mut without = self.without.iter();
        without
            .find(|one| one.is(&ended.printed))
            .map(|one| one.line)
    }
}

/// Runs the script whose n-th allocation is refused; none where it has so many no more.
fn short(
    rt: &HostRuntime,
    heap: Heap,
    given: Given<'_>,
    script: &File<'_>,
    n: u64,
) -> io::Result<Option<Ended>> {
    heap.refuse(n);
    let ended = run(rt, heap, given, script);
    let was_refused = heap.calls() < u64::MAX / 2;
    heap.refuse(0);
    if was_refused {
        Ok(Some(ended?))
    } else {
        Ok(None)
    }
}

/// Refuses each allocation in turn, and marks each line whose event was left out. Answers the number of the
/// first allocation after which something else is printed than is due, if there is one, and what that was.
fn mark(
    rt: &HostRuntime,
    heap: Heap,
    given: Given<'_>,
    script: &File<'_>,
    expected: &Expected,
    marks: &mut [bool],
) -> io::Result<Option<(u64, Ended)>> {
    for n in 1..100_000 {
        let Some(ended) = short(rt, heap, given, script, n)? else {
            return Ok(None);
        };
        if expected.has_ended(&ended) {
            continue;
        }
        match expected
            .left_out(&ended)
            .and_then(|line| marks.get_mut(line))
        {
            Some(mark) => *mark = true,
            None => return Ok(Some((n, ended))),
        }
    }
    Ok(None)
}

/// Runs a script once for each of its allocations, which is refused, and prints the number of each line whose
/// event was left out in one of these runs.
pub(crate) fn refuse_each(
    rt: &HostRuntime,
    heap: Heap,
    given: Given<'_>,
    script: &File<'_>,
) -> io::Result<Ended> {
    let text = str::from_utf8(script.octets.unwrap_or(&[])).unwrap_or("");
    let expected = Expected::new(rt, heap, given, script.path, text)?;
    let mut marks = Vec::new(rt.alloc());
    for _ in text.lines() {
        marks.push(false)?;
    }
    if let Some((n, other)) = mark(rt, heap, given, script, &expected, &mut marks)? {
        let mut ended = other;
        writeln!(
            ended.told,
            "this was printed where allocation {n} was refused"
        )?;
        ended.status = REFUSED;
        return Ok(ended);
    }
    let mut ended = started(rt, DONE);
    for (line, is_left_out) in marks.iter().enumerate() {
        if *is_left_out {
            writeln!(
                ended.printed,
                "line {} was left out",
                line.saturating_add(1)
            )?;
        }
    }
    Ok(ended)
}
