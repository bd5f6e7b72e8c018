// One line of a script, read from its words.
use crate::command::{Access, Command, Look};
use crate::fault::Wrong;
use crate::line::{BoardLine, Chute, Contents, Labels, Line, Lock, Ports, Ram};
use std::alloc::Global;
use text::numeral;
use text::numeral::Base;

// A lent RAM, a chute record and a memory look have at most so many places.
const MOST: u32 = 65536;

// A line is a command, or else a board line. `chute` begins either: alone it is the look.
pub(crate) fn read_line(heap: Global, name: &[u8], args: &[&[u8]]) -> Result<Line, Wrong> {
    let command = match name {
        b"poke" => {
            let (address, byte) = two(args, read_address, read_byte)?;
            Command::Access(Access::Poke { address, byte })
        }
        b"in" => {
            let port = one(args, read_byte)?;
            Command::Access(Access::In { port })
        }
        b"out" => {
            let (port, byte) = two(args, read_byte, read_byte)?;
            Command::Access(Access::Out { port, byte })
        }
        b"memory" => {
            let (address, count) = two(args, read_address, read_count)?;
            Command::Look(Look::Memory { address, count })
        }
        b"latch" => {
            let port = one(args, read_byte)?;
            Command::Look(Look::Latch { port })
        }
        b"waiting" => {
            none(args)?;
            Command::Look(Look::Waiting)
        }
        b"chute" if args.is_empty() => Command::Look(Look::Chute),
        _ => return read_board_line(heap, name, args).map(Line::Board),
    };
    Ok(Line::Do(command))
}

fn read_board_line(heap: Global, name: &[u8], args: &[&[u8]]) -> Result<BoardLine, Wrong> {
    let line = match name {
        b"boot" => BoardLine::Boot(boot(heap, args)?),
        b"border" => BoardLine::Border(one(args, read_address)?),
        b"ram" => {
            let (first, length) = two(args, read_address, read_number)?;
            BoardLine::Ram(Ram { first, length })
        }
        b"at" => {
            let (address, bytes) = one_then_bytes(heap, args, read_address)?;
            BoardLine::At(Contents { address, bytes })
        }
        b"lock" => {
            let (first, last) = two(args, read_address, read_address)?;
            BoardLine::Lock(Lock { first, last })
        }
        b"labels" => {
            let (port, bytes) = one_then_bytes(heap, args, read_byte)?;
            BoardLine::Labels(Labels { port, bytes })
        }
        b"chute" => {
            let (port, depth) = two(args, read_byte, read_number)?;
            BoardLine::Chute(Chute { port, depth })
        }
        b"rest" => {
            let (port, byte) = two(args, read_byte, read_byte)?;
            BoardLine::Rest { port, byte }
        }
        b"ports" => {
            let (first, second) = two(args, read_byte, read_byte)?;
            BoardLine::Ports(Ports { first, second })
        }
        _ => return Err(Wrong::NotUnderstood),
    };
    Ok(line)
}

// The words behind a line's name: none, one, two, or one and then bytes. They are read from the left, and none of them
// before it is known that there are as many; only for bytes it is then seen whether there is one.
fn none(args: &[&[u8]]) -> Result<(), Wrong> {
    match args {
        [] => Ok(()),
        _ => Err(Wrong::NotUnderstood),
    }
}

fn one<A, F: FnOnce(&[u8]) -> Result<A, Wrong>>(args: &[&[u8]], read: F) -> Result<A, Wrong>
    requires { F.IsAlwaysCallable read }
{
    let [word] = args else {
        return Err(Wrong::NotUnderstood);
    };
    read(word)
}

fn two<A: Drop, B, F, G>(args: &[&[u8]], first: F, second: G) -> Result<(A, B), Wrong>
where
    F: FnOnce(&[u8]) -> Result<A, Wrong>,
    G: FnOnce(&[u8]) -> Result<B, Wrong>,
    requires first { F.IsAlwaysCallable first }
    requires second { G.IsAlwaysCallable second }
{
    let [word, other] = args else {
        return Err(Wrong::NotUnderstood);
    };
    Ok((first(word)?, second(other)?))
}

fn one_then_bytes<A: Drop, F: FnOnce(&[u8]) -> Result<A, Wrong>>(
    heap: Global,
    args: &[&[u8]],
    read: F,
) -> Result<(A, Vec<u8>), Wrong>
    requires { F.IsAlwaysCallable read }
{
    let [word, rest @ ..] = args else {
        return Err(Wrong::NotUnderstood);
    };
    Ok((read(word)?, bytes(heap, rest)?))
}

// A boot table has 256 places.
fn boot(heap: Global, args: &[&[u8]]) -> Result<Vec<u8>, Wrong> {
    if args.len() > 256 {
        return Err(Wrong::NotUnderstood);
    }
    bytes(heap, args)
}

// One byte or more.
fn bytes(heap: Global, words: &[&[u8]]) -> Result<Vec<u8>, Wrong> {
    if words.is_empty() {
        return Err(Wrong::NotUnderstood);
    }
    words.iter().map(|word| read_byte(word)).try_collect(heap)
}

fn read_byte(word: &[u8]) -> Result<u8, Wrong> {
    numeral::byte(word).ok_or(Wrong::NoByte)
}

fn read_address(word: &[u8]) -> Result<u16, Wrong> {
    numeral::address(word).ok_or(Wrong::NoAddress)
}

// A decimal number of at most 65,536.
fn read_number(word: &[u8]) -> Result<u32, Wrong> {
    numeral::numeral(Base::Decimal, word, MOST).ok_or(Wrong::NoNumber)
}

// The same, but not 0.
fn read_count(word: &[u8]) -> Result<u32, Wrong> {
    match read_number(word)? {
        0 => Err(Wrong::NoNumber),
        count => Ok(count),
    }
}
