//! A server whose table is a cache of its folder.
ghost use Rattle.std.specs.Prelude.{◌≡◌, ◌≤◌, true, false, [], ◌∷◌, map, IfOk, IfErr, MatchOption};
ghost use Rattle.std.specs.List.{All};
ghost use Rattle.bw_model.specs.Replies.{Noticed, DelayedStore};
ghost use Rattle.bw_model.specs.Wire.{Says, Asks, Second, last_number};
ghost use Rattle.bw_wire.specs.Frames.{message_of, asked_name, asked_number};
ghost use Rattle.bw_wire.specs.Replies.{reply_of, HasWireNumbers};
ghost use Rattle.bw_session.specs.KnownNames.{ListsNames};
ghost use Rattle.bw_session.specs.SeenServers.{known_kept};
ghost use Rattle.bw_session.specs.ServerTurns.{ServerTurn};
ghost use Rattle.bw_session.specs.TableChanges.{forgettable_kept};
ghost use Rattle.bw_kept.specs.LeftOutNames.{IfLeftOut, with_left_out};
ghost use Rattle.bw_kept.specs.UseOrder.{with_use_if};

use crate::delay::Delay;
use crate::finding::{Found, close_unknown, find};
use crate::left_out::LeftOut;
use crate::recovering::commit_notes;
use crate::uses::Uses;
use arrayvec::ArrayVec;
use bw_disk::Volume;
use bw_exchange::{NotKept, Turns};
use bw_folder::{FolderJournal, FolderStore};
use bw_journal::Journal;
use bw_model::Name;
use bw_recovery::NameFault;
use bw_session::{HasTable, Server};
use bw_store::TakeStore;
use bw_wire::{Ask, Message, Notice, Reply};
use std::alloc::{AllocError, Global};

/// A server whose table is a cache of its folder. A frame of a name that isn't in the table recovers
/// the name from the folder first: if a number of it is done, it comes into the table, as a start
/// takes it over. If the table is full, a name of which nothing waits leaves it first: the least
/// recently used, or another if none that was used may. It is forgotten, and its files are closed;
/// what lies in the folder is what a stop leaves of its log.
///
/// A frame is answered DelayedStore with next 0, and nothing changes of its name but what a recovery
/// mends, if its name isn't in the table and one of these holds (`Delay`):
///
/// - a call of a disk failed, or memory was refused;
/// - something is wrong with the name's journal or its file, or it has too many numbers;
/// - the disks of store and journal don't show alike whether a new name has a file;
/// - the name lies in the folder, and nothing can leave the table.
///
/// Notes that a journal keeps for a commit are committed first, of all names: so a name that leaves the
/// table, or comes into it, has none. What a commit couldn't write is kept for the next one.
///
/// Names with faults are left out one by one; all others go on. A name in the table is answered as by
/// the server alone.
///
/// # Not specified
/// - Which of several names leaves the table, and when memory is refused.
/// - That after a frame only names in the table have files open.
#[derive(Drop)]
pub struct KeptServer<S: TakeStore, J: Journal> {
    pub(crate) server: Server<S, J>,
    pub(crate) uses: Uses,
    pub(crate) left_out: LeftOut,
    pub(crate) alloc: Global,
    /// A frame was answered since the last commit.
    pub(crate) answered: bool,
}

impl<S: TakeStore, J: Journal> KeptServer<S, J> {
    ghost use Rattle.bw_kept.specs.KeptServers.{table_server, names_used, names_left_out, was_answered};
    ghost use Rattle.bw_kept.specs.KeptServers.{NotesUse};

    /// A server over a folder. Names that are in its table count as used before all others, in any
    /// order.
    ///
    /// # Errors
    /// `AllocError`, with the server, if memory was refused.
    ///
    /// # Not specified
    /// When memory is refused.
    pub fn new(
        alloc: Global,
        server: Server<S, J>,
    ) -> Result<KeptServer<S, J>, (AllocError, Server<S, J>)>
        ensures server { IfOk result (λ k. table_server k ≡ server) }
        ensures used { IfOk result (λ k. ListsNames (known_kept server) (names_used k)) }
        ensures none { IfOk result (λ k. names_left_out k ≡ []) }
        ensures answered { IfOk result (λ k. was_answered k ≡ false) }
        ensures back { IfErr result (λ e. e.1 ≡ server) }
    {
        match (first_uses(alloc, &server), LeftOut::new(alloc)) {
            (Ok(uses), Ok(left_out)) => Ok(KeptServer {
                server,
                uses,
                left_out,
                alloc,
                answered: false,
            }),
            (Err(error), _) => Err((error, server)),
            (_, Err(error)) => Err((error, server)),
        }
    }

    /// The server of the names in the table.
    pub fn server(&self) -> &Server<S, J>
        ensures { result.now ≡ table_server self.now }
    {
        &self.server
    }

    /// The server of the names in the table, by value.
    pub fn into_server(self) -> Server<S, J>
        ensures { result ≡ table_server self }
    {
        let KeptServer {
            server,
            uses: _,
            left_out: _,
            alloc: _,
            answered: _,
        } = self;
        server
    }

    /// The next name that is left out, with what is wrong with its journal or its file: one of which
    /// frames were put off for that. Each is given once, the first one first.
    ///
    /// # Not specified
    /// Which names. More than 256 aren't kept for this, and one may be given again after 512 others.
    pub fn take_left_out(&mut self) -> Option<(Name, NameFault)>
        ensures server { table_server self.new ≡ table_server self.old }
        ensures used { names_used self.new ≡ names_used self.old }
        ensures answered { was_answered self.new ≡ was_answered self.old }
        ensures given { MatchOption result ((self.new ≡ self.old) × (names_left_out self.old ≡ []))
            (λ next. names_left_out self.old ≡ next ∷ names_left_out self.new) }
    {
        self.left_out.take_next()
    }

    /// Has the server answer a message, and notes the use of its name.
    fn serve(&mut self, name: &Name, message: &Message<'_>, replies: &mut ArrayVec<Reply, 17>)
        ensures turned { ServerTurn S.TakeStore J.Journal self.old.server
            (Says (message_of message.now)) (map reply_of replies.new.items) self.new.server }
        ensures numbers { All HasWireNumbers replies.new.items }
        ensures noted { NotesUse name.now self.old self.new }
    {
        Turns::turn(&mut self.server, message, replies);
        self.note_use(name);
    }

    /// Has the server answer an ask, and notes the use of its name.
    fn answer(&mut self, asked: &Name, ask: &Ask<'_>) -> Reply
        ensures turned { ServerTurn S.TakeStore J.Journal self.old.server
            (Asks (asked_name ask.now) (asked_number ask.now)) (reply_of result ∷ []) self.new.server }
        ensures numbers { HasWireNumbers result }
        ensures noted { NotesUse asked.now self.old self.new }
    {
        let reply = Turns::ask(&mut self.server, ask);
        self.note_use(asked);
        reply
    }

    /// Notes that a name was used, if it may leave the table. One that may not yet is noted at the
    /// message after which it may.
    fn note_use(&mut self, name: &Name)
        ensures server { self.new.server ≡ self.old.server }
        ensures names { self.new.uses.names.items
            ≡ with_use_if (forgettable_kept self.old.server name.now) name.now self.old.uses.names.items }
    {
        if self.server.may_forget(name) {
            self.uses.touch(name);
        }
    }
}

/// The uses with which a server starts: each name of its table counts as used.
fn first_uses<S: TakeStore, J: Journal>(
    alloc: Global,
    server: &Server<S, J>,
) -> Result<Uses, AllocError>
    ensures names { IfOk result (λ u. ListsNames (known_kept server.now) u.names.items) }
{
    let names = server.known_names(alloc)?;
    Uses::of(names)
}

impl<S: TakeStore, J: Journal> HasTable for KeptServer<S, J> {
    ghost use Rattle.bw_session.specs.Books.{HoldsBook};
    ghost use Rattle.bw_kept.specs.KeptServers.{table_server};

    type Store = S;

    type Journal = J;

    ghost holds = { λ k first book. HoldsBook S.TakeStore J.Journal first (table_server k) book };

    fn table(&self) -> &Server<S, J> {
        &self.server
    }
}

impl<D: Volume, E: Volume> KeptServer<FolderStore<D>, FolderJournal<E>> {
    ghost use Rattle.bw_kept.specs.KeptCommits.{failed_sync_of, TriesCommit};
    ghost use Rattle.bw_kept.specs.KeptServers.{table_server, was_answered};
    ghost use Rattle.bw_kept.specs.KeptTurns.{OnlyCommits};

    /// The name of which a sync failed, if one has: that of a take's file at its CLOSE, or else of a
    /// journal.
    pub fn failed_sync(&self) -> Option<Name>
        ensures { result ≡ failed_sync_of (table_server self.now) }
    {
        match self.server.store().failed_sync() {
            Some(name) => Some(name),
            None => self.server.journal().failed_sync(),
        }
    }

    /// Commits what is noted, if a frame was answered since the last commit.
    fn commit_answered(&mut self)
        ensures only { OnlyCommits ⟦<FolderStore<D> as TakeStore>⟧ ⟦<FolderJournal<E> as Journal>⟧
            (table_server self.old) (table_server self.new) }
        ensures tried { was_answered self.old ≡ true →
            TriesCommit (table_server self.old) (table_server self.new) }
        ensures idle { was_answered self.old ≡ false → self.new ≡ self.old }
        ensures answered { was_answered self.new ≡ false }
    {
        if self.answered {
            self.answered = false;
            let _tried = commit_notes(&mut self.server);
        }
    }
}

impl<D: Volume, E: Volume> Turns for KeptServer<FolderStore<D>, FolderJournal<E>> {
    ghost use Rattle.bw_kept.specs.KeptCommits.{CommitsKept};
    ghost use Rattle.bw_kept.specs.KeptTurns.{KeptTurn, DiskFails, DisksDiffer};
    ghost use Rattle.bw_kept.specs.KeptServers.{table_server, was_answered};

    ghost answers = { λ old frame replies new.
        KeptTurn ⟦<FolderStore<D> as TakeStore>⟧ ⟦<FolderJournal<E> as Journal>⟧
        (DiskFails D.Disk E.Disk) (DisksDiffer D.Disk E.Disk)
        (table_server old) frame replies (table_server new) };

    /// No frame was answered since the last commit: another one would change nothing.
    ghost committed = { λ k. was_answered k ≡ false };

    ghost commits = { CommitsKept };

    fn turn(&mut self, message: &Message<'_>, replies: &mut ArrayVec<Reply, 17>) {
        self.answered = true;
        let name = message.name();
        match find(self.alloc, &mut self.server, self.uses.names(), &name) {
            Found::Known => self.serve(&name, message, replies),
            Found::New => {
                self.serve(&name, message, replies);
                close_unknown(&mut self.server, &name);
            }
            Found::PutOff(delay) => {
                note_delay(&mut self.left_out, &name, delay);
                put_off(name, message.number(), replies);
            }
        }
    }

    fn ask(&mut self, ask: &Ask<'_>) -> Reply {
        self.answered = true;
        let name = ask.name();
        match find(self.alloc, &mut self.server, self.uses.names(), &name) {
            Found::Known => self.answer(&name, ask),
            Found::New => {
                let reply = self.answer(&name, ask);
                close_unknown(&mut self.server, &name);
                reply
            }
            Found::PutOff(delay) => {
                note_delay(&mut self.left_out, &name, delay);
                delayed(name, ask.number())
            }
        }
    }

    /// Commits what is noted, if a frame was answered since the last commit. What couldn't be written is
    /// still noted: the commit after the next frame tries it again, and none succeeds before it is
    /// written.
    fn commit(&mut self) -> Result<(), NotKept> {
        self.commit_answered();
        match self.failed_sync() {
            Some(_name) => Err(NotKept::SyncFault),
            None => {
                if self.server.journal().awaits_commit() {
                    Err(NotKept::WriteFault)
                } else {
                    Ok(())
                }
            }
        }
    }
}

/// Notes a name that is put off since something is wrong with it.
fn note_delay(left_out: &mut LeftOut, name: &Name, delay: Delay)
    ensures fault { IfLeftOut delay (λ fault. left_out.new.waiting.items
        ≡ with_left_out left_out.old.reported.names.items name.now fault left_out.old.waiting.items) }
{
    if let Delay::LeftOut(fault) = delay {
        left_out.note(name, fault);
    }
}

/// The reply to a message that is put off.
fn put_off(name: Name, number: u32, replies: &mut ArrayVec<Reply, 17>)
    requires range { number ≤ last_number Second }
    ensures replies { map reply_of replies.new.items ≡ Noticed name number DelayedStore 0 ∷ [] }
    ensures numbers { All HasWireNumbers replies.new.items }
{
    replies.clear();
    replies.push(delayed(name, number));
}

/// The notice that nothing can be done with a name now.
fn delayed(name: Name, number: u32) -> Reply
    requires range { number ≤ last_number Second }
    ensures reply { reply_of result ≡ Noticed name number DelayedStore 0 }
    ensures numbers { HasWireNumbers result }
{
    Reply::Notice {
        name,
        number,
        code: Notice::DelayedStore,
        next: 0,
    }
}
