//! What a run is printed as.

use crate::act::Generation;
use crate::case::Case;
use crate::notes::Notes;
use crate::run::Ending;
use crate::told::{Content, Kept, Line, Replied, Told};
use replay_cli::Verdict;
use std::io;
use std::sync::Wait;

/// Prints what each act was answered, session by session, and how the database ended.
pub(crate) fn print_case(
    rt: &(impl Wait + Print),
    case: Case,
    notes: &Notes,
    ending: Ending,
) -> io::Result<()> {
    println!(rt; "{}:", case.script().name)?;
    for session in 0..2 {
        print_session(rt, notes, session)?;
    }
    let [first, second] = ending.calls;
    println!(rt;
        "closed at place {}, calls {first} and {second}",
        ending.place
    )?;
    print_points(rt, notes)?;
    print_ending(rt, notes, ending)
}

/// Prints how often session 0 came to each point of a compaction.
fn print_points(rt: &impl Print, notes: &Notes) -> io::Result<()> {
    let points = notes.marks.points();
    println!(rt;
        "sliced {}, caught up {}, finishing {}",
        points.sliced, points.caught_up, points.finishing
    )
}

/// Prints how much a soak did, and whether the history has just the entries with a receipt.
pub(crate) fn print_soak(
    rt: &(impl Wait + Print),
    notes: &Notes,
    ending: Ending,
) -> io::Result<()> {
    let counts = notes.counts();
    let samples = notes.samples.lock(rt).len();
    println!(rt; "a soak:")?;
    println!(rt; "{} writes, {samples} samples", counts.written)?;
    println!(rt;
        "{} purges, {} compactions",
        some(counts.purged),
        some(counts.compacted)
    )?;
    if counts.receipts == ending.place {
        println!(rt; "each receipt told once")?;
    } else {
        println!(rt; "{} receipts, {} entries", counts.receipts, ending.place)?;
    }
    print_ending(rt, notes, ending)
}

/// How many there were, as far as that is the same in each soak.
fn some(count: u64) -> &'static str {
    match count {
        0 => "no",
        _ => "some",
    }
}

fn print_ending(rt: &impl Print, notes: &Notes, ending: Ending) -> io::Result<()> {
    match ending.again {
        Some(place) if place == ending.place => println!(rt; "all acted again")?,
        _ => println!(rt; "acted again: other replies")?,
    }
    print_audit(rt, ending)?;
    let late = notes.marks.late();
    println!(rt;
        "{} lost, {late} late, {} failed",
        ending.lost,
        notes.counts().failed
    )
}

/// Prints what is said of the dump of the history.
fn print_audit(rt: &impl Print, ending: Ending) -> io::Result<()> {
    match ending.audit {
        Some(Verdict::Legal(places)) if places == ending.place => {
            println!(rt; "its dump is legal")
        }
        Some(verdict) => println!(rt; "its dump: {verdict}"),
        None => println!(rt; "no dump"),
    }
}

fn print_session(rt: &(impl Wait + Print), notes: &Notes, session: usize) -> io::Result<()> {
    let lines = notes.lines.lock(rt);
    for line in lines.iter() {
        if line.session == session {
            print_line(rt, *line)?;
        }
    }
    Ok(())
}

fn print_line(rt: &impl Print, line: Line) -> io::Result<()> {
    print!(rt; "session {}: ", line.session)?;
    match line.told {
        Told::Receipt { call, place, reply } => {
            print!(rt; "call {call}, place {place}, ")?;
            print_reply(rt, reply)
        }
        Told::Untold { place } => println!(rt; "another entry at place {place}"),
        Told::Fault(fault) => println!(rt; "{fault}"),
        Told::Content(content) => print_content(rt, content),
        Told::Kept(letter, generation, kept) => print_kept(rt, letter, generation, kept),
        Told::Met { place } => println!(rt; "met session 0 at place {place}"),
        Told::Nothing => println!(rt; "nothing"),
    }
}

fn print_reply(rt: &impl Print, reply: Replied) -> io::Result<()> {
    match reply {
        Replied::Wrote => println!(rt; "wrote"),
        Replied::Refused => println!(rt; "refused"),
        Replied::Purged(number) => println!(rt; "purged {number}"),
        Replied::Done => println!(rt; "done"),
    }
}

fn print_content(rt: &impl Print, content: Content) -> io::Result<()> {
    println!(rt;
        "place {}, update {}, purge {}, documents {}",
        content.place, content.update_seq, content.purge_seq, content.documents
    )
}

fn print_kept(rt: &impl Print, letter: char, generation: Generation, kept: Kept) -> io::Result<()> {
    let number = match generation {
        Generation::First => 1,
        Generation::Second => 2,
    };
    match kept {
        Kept::Unknown => println!(rt; "{letter} {number}: unknown"),
        Kept::WithoutBody => println!(rt; "{letter} {number}: without a body"),
        Kept::WithBody => println!(rt; "{letter} {number}: with a body"),
    }
}
