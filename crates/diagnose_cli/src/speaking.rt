// A command with several replies: its words are read, then its files, and it tells over them, each reply as soon as it is known.
ghost use Rattle.std.specs.Prelude.{◌≡◌, ◌≤◌, ℕ, List, [], Some, true, length, nat_lt, IsErrOf, IsOkAnd};
ghost use Rattle.des_base.specs.Outside.{Rose};
ghost use Rattle.des_base.specs.declared.TheConstants.{MOST_STEPS};
ghost use Rattle.diagnose_cli.specs.Commands.{IsInList, told_often};
ghost use Rattle.diagnose_cli.specs.Due.{Closes, Due, HasNotBegun, StopsEmpty};
ghost use Rattle.diagnose_cli.specs.Outcomes.{status_of_telling};
ghost use Rattle.diagnose_cli.specs.Rows.{Leaves, LeftBy};
ghost use Rattle.diagnose_cli.specs.Run.{AsksNone, LoadsNone, SaysStop};
ghost use Rattle.diagnose_cli.specs.Tasks.{AreWords, Speech, speaking};
ghost use Rattle.endings.specs.Files.{loads};
ghost use Rattle.endings.specs.Puts.{Speaks};
ghost use Rattle.endings.specs.Texts.{FileKind};
ghost use Rattle.endings.specs.declared.ending.Kind.{Kind};
ghost use Rattle.telling.specs.Telling.{RisesExactlyIf};

use crate::command::Limits;
use crate::reading::Reading;
use des_base::{Shelf, Sink, WordList};
use endings::{Kind, Stop, put_once, status_of_kind};
use least_faults::MOST_SIZE;
use proof_ledger::Ledger;
use std::alloc::Global;
use telling::Broken;

/// A command with several replies.
pub trait Speaking {
    ghost use Rattle.diagnose_cli.specs.declared.command.Limits.{Limits};

    /// What is read of its files.
    type Files: Reading + Drop;

    /// The outcome of telling: what its status depends on.
    type Told;

    /// Its name.
    ghost name: { List ℕ };

    /// The kinds of its files.
    ghost kinds: { List FileKind };

    /// What it has to do, by its steps and its budget.
    ghost speech: { Limits → Speech };

    /// It is one of the listed commands.
    ghost listed: { (words : List (List ℕ)) → IsInList (told_often name kinds speech) words };

    /// How large its question is, over its files.
    ghost sized: { Self.Files → Limits → ℕ };

    /// The kind of an outcome.
    ghost kind: { Self.Told → Kind };

    /// The size of its question.
    fn size(alloc: Global, files: &Self::Files, limits: Limits) -> u64
        requires { limits.steps ≤ MOST_STEPS }
        ensures is { result ≡ sized files.now limits }
        ensures asked { (texts : List (List ℕ)) → Self.Files.reads texts files.now → (speech limits).size texts ≡ Some result };

    /// The kind of an outcome.
    fn kind_of(told: Self::Told) -> Kind
        ensures { result ≡ kind told };

    /// Tells over its files, where its question isn't too large.
    fn tell<S: Sink>(
        alloc: Global,
        files: Self::Files,
        limits: Limits,
        out: &mut S,
        book: &mut Ledger,
    ) -> Result<Self::Told, Broken>
        requires steps { limits.steps ≤ MOST_STEPS }
        requires small { sized files limits ≤ MOST_SIZE }
        requires empty { book.old.entries ≡ [] }
        ensures speaks { (texts : List (List ℕ)) → Self.Files.reads texts files → Speaks (λ e. IsOkAnd e ((speech limits).says book.new.entries texts)) ((speech limits).lost book.new.entries) (S.taken out.old) (S.taken out.new) (Rose (S.faults out.old) (S.faults out.new)) (status_of_telling kind result) }
        ensures left { (words texts : List (List ℕ)) → Self.Files.reads texts files → Leaves (speaking kinds (speech limits)) words texts book.new.entries }
        ensures failures { RisesExactlyIf (IsErrOf result Broken.Put) (S.failures out.old) (S.failures out.new) };

    ghost has_files: { kinds ≡ Self.Files.kinds };

    ghost has_words: { nat_lt (length Self.Files.kinds) 5 ≡ true };

    ghost begun: { (limits : Limits) → (speech limits).lost [] };
}

/// Runs a command that the words call: puts its replies, and answers the exit status.
pub fn speak<C: Speaking, F: Shelf, S: Sink>(
    alloc: Global,
    words: &WordList,
    shelf: &mut F,
    limits: Limits,
    out: &mut S,
    book: &mut Ledger,
) -> u8
    requires called { AreWords (told_often C.name C.kinds C.speech) limits words.now }
    requires steps { limits.steps ≤ MOST_STEPS }
    requires empty { book.old.entries ≡ [] }
    ensures speaks { Speaks (StopsEmpty (Due (loads F.held F.faults shelf.old shelf.new) words.now book.new.entries) book.new.entries) (HasNotBegun words.now book.new.entries) (S.taken out.old) (S.taken out.new) (Rose (S.faults out.old) (S.faults out.new)) result }
    ensures no_load { LoadsNone words.now → shelf.new ≡ shelf.old }
    ensures no_question { AsksNone words.now → book.new ≡ book.old }
    ensures stopped { SaysStop result → book.new ≡ book.old }
    ensures left { LeftBy (F.held shelf.old) words.now book.new.entries }
    ensures failures { RisesExactlyIf (result ≡ 4) (S.failures out.old) (S.failures out.new) }
{
    match C::Files::fetch(alloc, words, shelf) {
        Ok(files) => speak_over::<C, S>(alloc, files, limits, out, book),
        Err(stop) => put_once(alloc, Err(stop), out),
    }
}

// Runs it over its files, if its question isn't too large.
fn speak_over<C: Speaking, S: Sink>(
    alloc: Global,
    files: C::Files,
    limits: Limits,
    out: &mut S,
    book: &mut Ledger,
) -> u8
    requires steps { limits.steps ≤ MOST_STEPS }
    requires empty { book.old.entries ≡ [] }
    ensures speaks { (words texts : List (List ℕ)) → C.Files.reads texts files → Speaks (StopsEmpty (Closes (speaking C.kinds (C.speech limits)) words book.new.entries texts) book.new.entries) ((C.speech limits).lost book.new.entries) (S.taken out.old) (S.taken out.new) (Rose (S.faults out.old) (S.faults out.new)) result }
    ensures stopped { SaysStop result → book.new ≡ book.old }
    ensures left { (words texts : List (List ℕ)) → C.Files.reads texts files → Leaves (speaking C.kinds (C.speech limits)) words texts book.new.entries }
    ensures failures { RisesExactlyIf (result ≡ 4) (S.failures out.old) (S.failures out.new) }
{
    let size = C::size(alloc, &files, limits);
    if size > MOST_SIZE {
        drop(files);
        return put_once(alloc, Err(Stop::Large(size)), out);
    }
    status_of::<C>(C::tell(alloc, files, limits, out, book))
}

// The status, by how telling ended.
fn status_of<C: Speaking>(told: Result<C::Told, Broken>) -> u8
    ensures { result ≡ status_of_telling C.kind told }
{
    match told {
        Ok(told) => status_of_kind(C::kind_of(told)),
        Err(Broken::Memory) => 9,
        Err(Broken::Put) => 4,
    }
}
