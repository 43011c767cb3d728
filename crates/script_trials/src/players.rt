//! Who hears the lines of the input, plays the cases, and reports.

use crate::cases::Case;
use crate::faults::Fault;
use crate::lines::{hear_each, hear_line};
use crate::plays::{Came, play};
use crate::texts::{push_escaped, push_last_line, push_line};
use byte_text::{Text, push_u64};
use outside::MemoryDisk;
use std::alloc::Global;
use std::sync::Wait;
use std::thread::Threads;

/// The group and the case that are heard now, how many cases of the group were as they should be, and the disk that the
/// last one left.
pub(crate) struct Player {
    alloc: Global,
    group: Text,
    good: u64,
    case: Option<Case>,
    left: Option<MemoryDisk>,
    report: Text,
}

impl Drop for Player {
    fn drop(self) {
        let Player {
            alloc: _,
            group: _,
            good: _,
            case: _,
            left: _,
            report: _,
        } = self;
    }
}

// Appends a line of a report: a word and what is as bytes.
fn push_told(alloc: Global, report: &mut Text, word: &[u8], bytes: &[u8]) -> Result<(), Fault> {
    report.push(word)?;
    push_escaped(alloc, report, bytes)?;
    report.push(b"\n")?;
    Ok(())
}

// Appends the first line that came and is another than the one that was wanted.
fn push_difference(
    alloc: Global,
    report: &mut Text,
    wanted: &[u8],
    came: &[u8],
) -> Result<(), Fault> {
    let mut others = came.split(|byte| *byte == b'\n');
    let mut number: u64 = 0;
    for line in wanted.split(|byte| *byte == b'\n') {
        number = number.saturating_add(1);
        let other = others.next().unwrap_or(b"");
        if line != other {
            report.push(b"  in line ")?;
            push_u64(report, number)?;
            report.push(b"\n")?;
            push_told(alloc, report, b"  wanted: ", line)?;
            return push_told(alloc, report, b"  came:   ", other);
        }
    }
    push_told(
        alloc,
        report,
        b"  came behind all: ",
        others.next().unwrap_or(b""),
    )
}

// What a case has to come to: what is printed, the status, and what is seen at the end.
fn wanted_of(case: &Case) -> Result<Text, Fault> {
    let mut wanted = case.output.copy()?;
    wanted.push(b"status ")?;
    if case.status.len() == 0 {
        wanted.push(b"0")?;
    }
    push_line(&mut wanted, case.status.bytes())?;
    for told in case.told.iter() {
        push_told(case.alloc, &mut wanted, b"told ", told.bytes())?;
    }
    if let Some(caller) = case.last {
        push_last_line(&mut wanted, caller)?;
    }
    for (_, seen) in case.looks.iter() {
        wanted.push(b"seen ")?;
        push_line(&mut wanted, seen.bytes())?;
    }
    Ok(wanted)
}

// Reports a case that did not come to what it should.
fn report_case(report: &mut Text, case: &Case, wanted: &Text, came: &Text) -> Result<(), Fault> {
    push_line(report, b"not as it should be:")?;
    report.push(b"  case ")?;
    push_line(report, case.name.bytes())?;
    push_difference(case.alloc, report, wanted.bytes(), came.bytes())
}

impl Player {
    /// Nothing was heard so far.
    pub(crate) fn new(alloc: Global) -> Player {
        Player {
            alloc,
            group: Text::new(alloc),
            good: 0,
            case: None,
            left: None,
            report: Text::new(alloc),
        }
    }

    /// What was reported.
    pub(crate) fn report(&self) -> &[u8] {
        self.report.bytes()
    }

    /// Nothing is reported from then on but what comes.
    pub(crate) fn clear_report(&mut self) {
        self.report.truncate(0);
    }

    // A line that says how a case or a line failed. Without memory there is none.
    fn complain(&mut self, word: &str, about: &str) {
        let line = format!(in self.alloc; "{word}: {about}\n");
        if let Ok(line) = line {
            let _pushed = self.report.push(line.as_bytes());
        }
    }

    // Compares what came of a case with what had to.
    fn compare(&mut self, case: &Case, came: &Text) -> Result<(), Fault> {
        let wanted = wanted_of(case)?;
        if wanted.bytes() == came.bytes() {
            self.good = self.good.saturating_add(1);
            return Ok(());
        }
        report_case(&mut self.report, case, &wanted, came)
    }

    // Plays a case.
    fn play_case<R: Wait + Threads + Sync>(&mut self, rt: &R, case: &Case) -> Result<(), Fault> {
        let left = self.left.take();
        let came = play(rt, self.alloc, case, left)?;
        let Came { text, disk } = came;
        self.left = disk;
        self.compare(case, &text)
    }

    // Plays the case that was heard last.
    fn end_case<R: Wait + Threads + Sync>(&mut self, rt: &R) {
        let Some(case) = self.case.take() else {
            return;
        };
        if case.is_faulty {
            return;
        }
        if self.play_case(rt, &case).is_err() {
            let name = str::from_utf8(case.name.bytes()).unwrap_or("");
            self.complain("not played", name);
        }
    }

    /// Ends a group, and reports it.
    pub(crate) fn end_group<R: Wait + Threads + Sync>(&mut self, rt: &R) {
        self.end_case(rt);
        if self.group.len() > 0 && self.report_group().is_err() {
            self.complain("no memory", "");
        }
        self.group.truncate(0);
        self.good = 0;
    }

    fn report_group(&mut self) -> Result<(), Fault> {
        self.report.push(self.group.bytes())?;
        self.report.push(b": ")?;
        push_u64(&mut self.report, self.good)?;
        push_line(&mut self.report, b" cases")
    }

    // A case begins.
    fn begin_case(&mut self, name: &str) -> Result<(), Fault> {
        let name = Text::of(self.alloc, name.as_bytes())?;
        self.case = Some(Case::new(self.alloc, name));
        Ok(())
    }

    // A line of a case. Where it is none, the case is not played.
    fn hear_of_case(&mut self, line: &str) -> Result<(), Fault> {
        let Some(case) = self.case.as_mut() else {
            return Err(Fault::Line);
        };
        let heard = match line.strip_prefix("each ") {
            Some(rest) => hear_each(case, rest),
            None => hear_line(case, line),
        };
        if heard.is_err() {
            case.is_faulty = true;
        }
        heard
    }

    // A line that begins a group or a case, or one of a case.
    fn hear_any<R: Wait + Threads + Sync>(&mut self, rt: &R, line: &str) -> Result<(), Fault> {
        if let Some(name) = line.strip_prefix("case ") {
            self.end_case(rt);
            return self.begin_case(name);
        }
        if let Some(name) = line.strip_prefix("group ") {
            self.end_group(rt);
            self.group.push(name.as_bytes())?;
            return Ok(());
        }
        self.hear_of_case(line)
    }

    /// A line of the input.
    pub(crate) fn hear<R: Wait + Threads + Sync>(&mut self, rt: &R, line: &str) {
        if line.is_empty() || line.starts_with('#') {
            return;
        }
        if self.hear_any(rt, line).is_err() {
            self.complain("no line of a case", line);
        }
    }
}
