//! The program `spur`: it runs the boards of a program, which it reads from standard input, and writes each board's outcome
//! and registers to standard output, with the history where it is asked; it judges the trace of a history; and it writes
//! the object of a text, and texts of any size.
//!
//! `main` only joins the top call to the process: its words, its standard streams, a swap in memory, and its exit status.
#![tactic(auto)]

use spur_io::{Sink, SinkStd, Source, SourceStd, put_all};
use spur_probe::{Probe, WatchProbe};
use spur_program::{Status, spur};
use spur_swap::SwapMemory;
use spur_threads::NoGate;
use spur_words::watched;
use std::alloc::{Alloc, AllocError, Global};
use std::env::Env;
use std::process::ExitCode;
use std::sync::Wait;
use std::thread::Threads;
use std::{env, io};

/// What `--help` writes.
const HELP: &[u8] =
    b"usage: spur run [--frames N] [--lines N] [--budget N] [--ahead N] [--counts] [--trace] < PROGRAM\n       \
    spur sched START [--frames N] [--lines N] [--budget N] [--ahead N] [--counts]\n                        \
    [--trace] [--late] [--watch A] .. < PROGRAM\n       \
    spur check [--budget N] < TEXT_AND_TRACE\n       \
    spur asm < TEXT > OBJECT\n       \
    spur gen NUMBER BOARDS PAGES > TEXT\n       \
    spur --help\n       \
    spur --version\n\
    \n\
    Runs a program's boards over their caches on one bus, and writes each board's outcome and registers. A program is\n\
    an assembly text, or the object of one. No file is named: what is read is standard input, and what is written\n\
    standard output. Numbers stand behind their command, and flags behind these, in any order, each once but --watch.\n\
    --help and --version stand alone.\n\
    \n\
    commands:\n  \
    run\n      \
    Each board runs on a thread of its own, in whatever order these get to their steps.\n      \
    example: spur run --counts < examples/sum.s\n  \
    sched START\n      \
    The schedule of the number START, 0 to 18446744073709551615, picks the board of each instruction.\n      \
    example: spur sched 1 --frames 1 --trace < examples/one_frame.s\n  \
    check\n      \
    Reads an assembly text and behind it, from the first line that begins with %, the trace of a run. Writes\n      \
    good N where all N entries are lawful, else bad ENTRY RULE WANTED FOUND of the first one that is not.\n      \
    example: cat TEXT TRACE | spur check\n  \
    asm\n      \
    Reads an assembly text, and writes its object: bytes, to be redirected into a file. A text with a fault is\n      \
    refused, but segments, pages and words are not judged before a run.\n      \
    example: spur asm < examples/sum.s > sum.object\n  \
    gen NUMBER BOARDS PAGES\n      \
    Reads nothing, and writes a text, made of a NUMBER from 0 to 4294967295, for 1 to 12 BOARDS that share\n      \
    1 to 512 PAGES.\n      \
    example: spur gen 7 4 64 | spur run\n\
    \n\
    flags of run and sched:\n  \
    --frames N  how many frames of memory hold data, 1 to 3900; without it 256\n  \
    --lines N   how many lines each cache has, a power of two from 16 to 4096; without it 4096\n  \
    --ahead N   how many lines of a page that leaves are flushed ahead of need in a turn on the bus, 0 to 128;\n              \
    without it 0, and a page leaves when its frame is wanted\n  \
    --counts    behind the report stands how many entries of each kind the history has\n  \
    --trace     behind all that stands the history, as the trace that check reads\n\
    flag of run, sched and check, which needs the budget of the run:\n  \
    --budget N  how many instructions each board may complete, 1 to 250000; without it 100000\n\
    flags of sched:\n  \
    --late      joins the boards' logs of hits to the history at turns on the bus and at the end alone, and not\n              \
    after each instruction\n  \
    --watch A   stops at the first claim of the block of A, a global byte address of 1 to 10 hexadecimal digits,\n              \
    0-9 and a-f, without 0x, below 4000000000; up to 8 times. A block that is brought in for writing is\n              \
    not claimed by that, and so not stopped at then. The report names the entry and the watch, and how\n              \
    many claims each watch saw. (Of the library's probes the one that keeps what was last stored to a\n              \
    word follows stores, and no test-and-sets.)\n              \
    example: spur sched 1 --watch 3fc0000000 < examples/sum.s\n\
    \n\
    exit status:\n  \
    0  every board halted, the trace is good, or all is written\n  \
    1  some board ended otherwise, or the trace is bad\n  \
    2  the words are refused: refused: word K names the first that does not fit, counted behind the program's name\n  \
    3  the input is refused; one line says why\n  \
    4  the input cannot be read\n  \
    5  the output cannot be written\n  \
    6  the swap failed before the run\n  \
    7  a watch stopped the run\n  \
    9  out of memory\n";

/// What `--version` writes.
const VERSION: &[u8] = b"spur 0.1.0\n";

/// A word that is of no table. It stands for words that are no text.
const NO_WORD: &str = "?";

/// The words after the program's name. Where they are no text, one word that is refused stands for them.
fn words_of<R: Env + Alloc<A = Global>>(rt: &R) -> Result<Vec<String>, AllocError> {
    match env::args(rt) {
        Ok(mut args) => {
            let _name = args.next();
            args.collect(rt.alloc())
        }
        Err(error) => {
            if error.kind() == io::ErrorKind::OutOfMemory {
                return Err(AllocError);
            }
            let mut words = Vec::new(rt.alloc());
            words.push(String::from_str(rt.alloc(), NO_WORD)?)?;
            Ok(words)
        }
    }
}

/// What a lone word asks to be told of the program, if it asks for that.
fn told_of<'a>(words: &[String]) -> Option<&'a [u8]> {
    match words {
        [word] => match word.as_str() {
            "--help" => Some(HELP),
            "--version" => Some(VERSION),
            _ => None,
        },
        _ => None,
    }
}

/// Puts a text about the program.
fn tell<K: Sink>(sink: &mut K, text: &[u8]) -> Status {
    match put_all(sink, text) {
        Ok(()) => Status::Fine,
        Err(_) => Status::WriteFault,
    }
}

/// Does what the words ask for, with a probe for each address that they watch, a swap in memory, and a gate that does
/// nothing.
fn run<S: Source, K: Sink, R: Threads + Wait + Sync>(
    rt: &R,
    alloc: Global,
    words: &[String],
    source: &mut S,
    sink: &mut K,
) -> Result<Status, AllocError> {
    let mut probes: Vec<Box<dyn Probe>> = Vec::new(alloc);
    for at in watched(alloc, words)? {
        probes.push(Box::new(alloc, WatchProbe::new(at))?)?;
    }
    let swap = SwapMemory::new(alloc);
    Ok(spur(rt, alloc, words, source, sink, swap, &NoGate, probes).status)
}

fn main(rt: HostRuntime) -> ExitCode {
    let Ok(words) = words_of(&rt) else {
        return ExitCode::from(Status::NoMemory.number());
    };
    let mut sink = SinkStd::new(io::writer(&rt));
    let status = match told_of(&words) {
        Some(text) => tell(&mut sink, text),
        None => {
            let mut source = SourceStd::new(rt.reader());
            match run(&rt, rt.alloc(), &words, &mut source, &mut sink) {
                Ok(status) => status,
                Err(AllocError) => Status::NoMemory,
            }
        }
    };
    ExitCode::from(status.number())
}
