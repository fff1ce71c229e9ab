// The input: one slip or one run to a line, in any order.
use anyhow::anyhow;
use journal::entry::Entry;
use journal::folder::Folder;
use orders::priority::PriorityFault;
use orders::weight::Weight;
use slips::fault::SlipFault;
use slips::list::EntryList;
use std::fmt;
use words::{cut, number, take_word};

// The slips that were good, and the caps of the runs asked for.
#[derive(Drop)]
pub(crate) struct Slips {
    pub(crate) list: EntryList<Weight>,
    pub(crate) caps: Vec<u64>,
}

// What a line asks for.
enum Request {
    Slip(Entry<Weight>),
    Run(u64),
}

// Why a line is bad.
#[derive(Drop)]
enum LineFault {
    Unreadable,
    Refused(PriorityFault),
}

impl From<PriorityFault> for LineFault {
    fn from(fault: PriorityFault) -> LineFault {
        LineFault::Refused(fault)
    }
}

impl fmt::Display for LineFault {
    fn fmt<W: fmt::Write>(&self, f: &mut fmt::Formatter<W>) -> fmt::Result {
        match self {
            LineFault::Unreadable => write!(f, "unreadable"),
            LineFault::Refused(fault) => write!(f, "{fault}"),
        }
    }
}

// A word that must be a number.
fn read(word: &[u8]) -> Result<u64, LineFault> {
    number(word).ok_or(LineFault::Unreadable)
}

// A number too large for 32 bits is read as the largest.
fn read_32(word: &[u8]) -> Result<u32, LineFault> {
    Ok(u32::try_from(read(word)?).unwrap_or(u32::MAX))
}

// The one word that a text has, if it has no more than one.
fn only_word(text: &[u8]) -> Result<&[u8], LineFault> {
    let (word, rest) = take_word(text);
    let (more, _) = take_word(rest);
    if more.is_empty() {
        Ok(word)
    } else {
        Err(LineFault::Unreadable)
    }
}

fn arrival(text: &[u8]) -> Result<Request, LineFault> {
    let (stamp, rest) = take_word(text);
    let (weight, rest) = take_word(rest);
    let number = only_word(rest)?;
    let stamp = read_32(stamp)?;
    let weight = read(weight)?;
    let number = read_32(number)?;
    Ok(Request::Slip(Entry::Arrival(Folder {
        stamp,
        priority: Weight::new(weight)?,
        number,
    })))
}

// What a line asks for, if anything. Only as many words are cut off as the command has, and behind an unknown one none, since
// they may be long.
fn read_line(line: &[u8]) -> Result<Option<Request>, LineFault> {
    let (text, _) = cut(line, b'#');
    let (command, rest) = take_word(text);
    let request = match command {
        b"" => return Ok(None),
        b"arrival" => arrival(rest)?,
        b"taking" => Request::Slip(Entry::Taking(read_32(only_word(rest)?)?)),
        b"run" => Request::Run(read(only_word(rest)?)?),
        _ => return Err(LineFault::Unreadable),
    };
    Ok(Some(request))
}

// Takes up what a line asks for; says so where the line is bad.
fn take_up(rt: &HostRuntime, slips: &mut Slips, place: u64, line: &[u8]) -> anyhow::Result<()> {
    match read_line(line) {
        Ok(None) => {}
        Ok(Some(Request::Run(cap))) => slips.caps.push(cap)?,
        Ok(Some(Request::Slip(entry))) => match slips.list.enter(entry) {
            Ok(()) => {}
            Err(SlipFault::Refused(why)) => println!(rt; "line {place}: {why}")?,
            Err(SlipFault::Memory) => return Err(anyhow!("out of memory")),
        },
        Err(fault) => println!(rt; "line {place}: {fault}")?,
    }
    Ok(())
}

// Reads every line, and prints which were bad.
pub(crate) fn read_slips(rt: &HostRuntime, text: &[u8]) -> anyhow::Result<Slips> {
    let heap = rt.alloc();
    let mut slips = Slips {
        list: EntryList::new(heap),
        caps: Vec::new(heap),
    };
    for (place, line) in (1..).zip(text.split(|b| *b == b'\n')) {
        take_up(rt, &mut slips, place, line)?;
    }
    Ok(slips)
}
