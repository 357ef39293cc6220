//! Plain memory, and that paging is invisible: what an author of programs may forget.
//!
//! Plain memory has the declared pages, each with its protection and its words, and no frames, no swap and no page table.
//! Each access has one answer there: it is done on the page's word, or is answered by Align, Unmapped or Protection, which
//! end a program. A flat state stands for one such memory. Without the entries of the bus and of the pager, and without the
//! faults that are served, a legal history is one of the plain machine, whatever frames there are; and each board is where
//! its program comes on plain memory.
//!
//! The laws are said over flat memory and processors alone, for any processor's meaning, with no tags, caches or world; each
//! is shown by a function that does nothing.
#![tactic(auto)]

ghost use Rattle.spur_plain.specs.EntryLaws.{EntryIsPlain, EntryMovesPlain, FinalIsPlain, VirtualIsWhole, WordIsPlain};
ghost use Rattle.spur_plain.specs.Invisible.{LegalStaysInvisible, PagingIsInvisible, PagingIsInvisibleButValues};
ghost use Rattle.spur_plain.specs.MemoryLaws.{AnswersStay, DoneIsDeclared, DoneIsPlain, FaultsLeaveMemory, LastWritten, OthersStay, PlainAfterInPieces, PlainInPieces, PlainIsAnswered, PlainStaysWhole, UnwrittenStays, WriteKeepsAnswers, WriteKeepsWhole, WrittenIsRead};
ghost use Rattle.spur_plain.specs.Needs.{CleanPagesAreNeeded};
ghost use Rattle.spur_plain.specs.Runs.{PlainOfOwn, ProgramsAreGlobal, RunIsPlain, RunIsPlainButValues};
ghost use Rattle.spur_plain.specs.Served.{AccessesAndOneFault, ServedDropOut};

use spur_cpu::Cpu;

/// A word of plain memory that was written is read again, where its page is declared, as that of an access that is done is.
/// Every other word, and every answer, is as before.
pub fn written_is_read()
    ensures read { WrittenIsRead }
    ensures declared { DoneIsDeclared }
    ensures others { OthersStay }
    ensures answers { WriteKeepsAnswers }
    ensures whole { WriteKeepsWhole }
{}

/// After a history of the plain machine a word is what was written last, or what it was where none wrote it. No history
/// changes an answer.
pub fn last_write_stands()
    ensures last { LastWritten }
    ensures unwritten { UnwrittenStays }
    ensures answers { AnswersStay }
    ensures answered { PlainIsAnswered }
    ensures whole { PlainStaysWhole }
    ensures pieces { PlainInPieces }
    ensures after { PlainAfterInPieces }
{}

/// The faults of a history of the plain machine may be left out: the accesses that are done are such a history by
/// themselves, and leave the same memory.
pub fn faults_leave_memory()
    ensures leave { FaultsLeaveMemory }
    ensures done { DoneIsPlain }
{}

/// What each allowed entry of a valid flat state is to the plain machine: a final answer is its answer, a word that is read
/// is its word, and what an entry changes is what it changes.
pub fn entries_are_plain()
    ensures whole { VirtualIsWhole }
    ensures answer { FinalIsPlain }
    ensures word { WordIsPlain }
    ensures entry { EntryIsPlain }
    ensures moves { EntryMovesPlain }
{}

/// A legal history from a valid flat state whose clean pages have the words of their slots is, without the entries of the
/// bus and of the pager and without the faults that are served, one of the plain machine. It leads to the plain memory of
/// the flat state after it. Where it is legal but for the values that it read, so it is but for these.
pub fn paging_is_invisible()
    ensures told { PagingIsInvisible }
    ensures but_values { PagingIsInvisibleButValues }
    ensures stays { LegalStaysInvisible }
{}

/// Clean pages are needed for that: a page that goes out without being dirty is not saved, so plain memory is another one
/// where its slot has other words.
pub fn paging_needs_clean_pages()
    ensures { CleanPagesAreNeeded }
{}

/// The faults that are served drop out of a board's entries: it comes as far by its accesses that are done and by the one
/// fault that ends it, if any.
pub fn served_faults_drop_out<C: Cpu>()
    ensures served { ServedDropOut C.meaning }
    ensures one { AccessesAndOneFault C.meaning }
    ensures own { PlainOfOwn }
{}

/// A whole run is one of the plain machine: its history, and each board's way, of which the ending fault, if there is one, is
/// the plain machine's answer. What is asked of addresses holds where each board has come by its program.
pub fn run_is_plain<C: Cpu>()
    ensures told { RunIsPlain C.meaning }
    ensures but_values { RunIsPlainButValues C.meaning }
    ensures addresses { ProgramsAreGlobal C.meaning }
{}
