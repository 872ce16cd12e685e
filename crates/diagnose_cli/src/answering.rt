// A command with one reply: its words are read, then its files, and it answers over them.
ghost use Rattle.std.specs.Prelude.{◌≡◌, ◌≢◌, ℕ, List, [], true, false, length, nat_lt, option_map, IfErr, IfSome, None, ⊤};
ghost use Rattle.des_base.specs.CommandWords.{word_at};
ghost use Rattle.diagnose_cli.specs.Commands.{IsInList};
ghost use Rattle.diagnose_cli.specs.Due.{ClosesOnce, IsDue};
ghost use Rattle.diagnose_cli.specs.Rows.{Leaves, LeftBy};
ghost use Rattle.diagnose_cli.specs.Run.{AsksNone, CallsNone, LoadsNone};
ghost use Rattle.diagnose_cli.specs.Tasks.{AreWords, NamedCommand, Reply as OneReply, one, told_once};
ghost use Rattle.endings.specs.Files.{loads};
ghost use Rattle.endings.specs.Transcripts.{UnlessMemory};

use crate::reading::Reading;
use des_base::{Shelf, WordList};
use endings::{Reply, Stop};
use proof_ledger::Ledger;
use std::alloc::Global;

/// A command with one reply.
pub trait Answering {
    /// What is read of its files.
    type Files: Reading + Drop;

    /// Its record.
    ghost named: { NamedCommand OneReply };

    /// It is one of the listed commands.
    ghost listed: { (words : List (List ℕ)) → IsInList (one named) words };

    /// What its words spell.
    ghost word: { Self → named.Word };

    /// What holds of what they spell, such as a limit.
    ghost fits: { Self → Type 0 } = { λ _. ⊤ };

    /// How many words it takes, with its name.
    fn word_count() -> usize
        ensures { result ≡ named.count };

    /// The command that these words spell.
    fn read(words: &WordList) -> Option<Self>
        requires { length words.now ≡ named.count }
        ensures read { option_map word result ≡ named.spelled words.now }
        ensures fits { IfSome result fits };

    /// The reply over its files, or why it has none. A command that asks nothing leaves the book as it is.
    fn answer(
        &self,
        alloc: Global,
        words: &WordList,
        files: &Self::Files,
        book: &mut Ledger,
    ) -> Result<Reply, Stop>
        requires words { length words.now ≡ named.count }
        requires fits { fits self.now }
        requires sound { Self.Files.sound files.now }
        requires empty { book.old.entries ≡ [] }
        ensures closes { (texts : List (List ℕ)) → Self.Files.reads texts files.now → UnlessMemory result (ClosesOnce (named.task (word self.now)) words.now book.new.entries texts result) }
        ensures unasked { (named.task (word self.now)).asks ≡ false → book.new ≡ book.old }
        ensures stopped { IfErr result (λ stop. stop ≢ Stop.Memory → book.new ≡ book.old) }
        ensures left { (texts : List (List ℕ)) → Self.Files.reads texts files.now → Leaves (told_once (named.task (word self.now))) words.now texts book.new.entries };

    ghost has_files: { (w : named.Word) → (named.task w).files ≡ Self.Files.kinds };

    ghost has_words: { nat_lt (length Self.Files.kinds) named.count ≡ true };
}

/// The command that the words spell, if its name is the first.
pub fn read_command<C: Answering>(words: &WordList) -> Option<C>
    requires name { word_at words.now 0 ≡ C.named.name }
    ensures called { IfSome result (λ command. AreWords (one C.named) (C.word command) words.now) }
    ensures fits { IfSome result C.fits }
    ensures none { result ≡ None → CallsNone words.now }
{
    let count = C::word_count();
    let len = words.len();
    if len == count { C::read(words) } else { None }
}

/// The reply of the command that the words call.
pub fn answer_over<C: Answering, F: Shelf>(
    alloc: Global,
    words: &WordList,
    shelf: &mut F,
    command: &C,
    book: &mut Ledger,
) -> Result<Reply, Stop>
    requires called { AreWords (one C.named) (C.word command.now) words.now }
    requires fits { C.fits command.now }
    requires empty { book.old.entries ≡ [] }
    ensures due { IsDue (loads F.held F.faults shelf.old shelf.new) words.now book.new.entries result }
    ensures no_load { LoadsNone words.now → shelf.new ≡ shelf.old }
    ensures no_question { AsksNone words.now → book.new ≡ book.old }
    ensures stopped { IfErr result (λ stop. stop ≢ Stop.Memory → book.new ≡ book.old) }
    ensures left { LeftBy (F.held shelf.old) words.now book.new.entries }
{
    let files = C::Files::fetch(alloc, words, shelf)?;
    let answer = command.answer(alloc, words, &files, book);
    drop(files);
    answer
}
