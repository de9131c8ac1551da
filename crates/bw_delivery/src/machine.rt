//! A machine with a server over a folder in memory: its start, its turns, and what a stop leaves.
ghost use Rattle.std.specs.Prelude.{◌≡◌, ◌≤◌, ℕ, [], true, false, IfOk};
ghost use Rattle.std.specs.Prelude.{map, length, string_bytes};
ghost use Rattle.bw_model.specs.Wire.{Says, Asks};
ghost use Rattle.bw_model.specs.Book.{Book};
ghost use Rattle.bw_model.specs.World.{World};
ghost use Rattle.bw_journal.specs.Stops.{cut_book};
ghost use Rattle.bw_wire.specs.Frames.{message_of, asked_name, asked_number};
ghost use Rattle.bw_wire.specs.Replies.{reply_of};
ghost use Rattle.bw_delivery.specs.StoppedWorlds.{MayCome};
ghost use Rattle.bw_delivery.specs.Machines.{IsRunning, IsLeftAt, IsMachine, IsUncalled, TurnsMachine};
ghost use Rattle.bw_delivery.specs.Machines.{the_folder, AnswersForName, BeginsOverLeft, StartsFound};
ghost use Rattle.bw_delivery.specs.Machines.{written_to, runs};
ghost use Rattle.bw_delivery.specs.PlayedEvents.{LeavesBook, MayStartIf, StopsIf, StartsIf};

use crate::asks::asked;
use crate::event::Lives;
use crate::shown::shown_notes;
use crate::stopping::{goes_on, take_apart};
use arrayvec::ArrayVec;
use bw_disk::{MemoryDisk, MortalDisk};
use bw_exchange::Turns;
use bw_folder::{FolderJournal, FolderStore};
use bw_kept::KeptServer;
use bw_layout::Limit;
use bw_model::Name;
use bw_session::Server;
use bw_wire::{Ask, Message, Reply};
use std::alloc::{AllocError, Global};

/// The folder of the takes and their journals.
pub(crate) const FOLDER: &str = "takes";

/// A server over disks in memory that die.
pub(crate) type MachineServer = KeptServer<
    FolderStore<MortalDisk<MemoryDisk>>,
    FolderJournal<MortalDisk<MemoryDisk>>,
>;

/// A server that runs.
#[derive(Drop)]
pub struct Life {
    /// The server.
    pub server: MachineServer,
}

/// What a server leaves that has stopped: the files of the takes, and their journals.
#[derive(Drop)]
pub struct Folder {
    /// The disk of the takes.
    pub takes: MemoryDisk,
    /// The disk of the journals.
    pub notes: MemoryDisk,
}

/// A machine.
#[derive(Drop)]
pub enum Machine {
    /// Its server runs.
    Runs(Life),
    /// No server runs; this was left.
    Stopped(Folder),
}

impl Folder {
    /// A folder in which there is nothing.
    pub fn new(alloc: Global) -> Folder
        ensures { (limit : ℕ) → IsLeftAt limit [] result }
    {
        Folder {
            takes: MemoryDisk::new(alloc),
            notes: MemoryDisk::new(alloc),
        }
    }
}

impl Life {
    /// Begins a server over a folder, on disks that die in these calls: it knows no name, and calls no
    /// disk. The disk of the journals is to show the files of the takes too.
    ///
    /// # Errors
    /// `AllocError` if memory was refused.
    ///
    /// # Not specified
    /// When memory is refused.
    pub fn begin(
        alloc: Global,
        folder: Folder,
        limit: Limit,
        lives: &Lives,
    ) -> Result<Life, AllocError>
        ensures running { (book : Book) → IsLeftAt limit book folder →
            IfOk result (λ life. IsRunning limit (cut_book book) life) }
        ensures lives { IfOk result (IsUncalled lives.now) }
    {
        let (of_takes, of_notes) = folder_twice(alloc)?;
        let takes = MortalDisk::new(folder.takes, lives.takes, lives.reached);
        let notes = MortalDisk::new(folder.notes, lives.notes, lives.reached);
        let store = FolderStore::in_folder(takes, alloc, of_takes);
        let journal = FolderJournal::in_folder(notes, alloc, of_notes, limit, false);
        // Called for its clause on the range of a limit.
        let _range = limit.bytes();
        let Ok(server) = Server::with_journal(alloc, store, journal, limit) else {
            return Err(AllocError);
        };
        match KeptServer::new(alloc, server) {
            Ok(server) => Ok(Life { server }),
            Err(_) => Err(AllocError),
        }
    }
}

/// Starts a server over what was left, if none runs. It is asked for a name first, by disks that
/// don't die, so that the name's files are as they are to be; the disk of the journals then shows
/// them to the server that goes on.
///
/// # Errors
/// `AllocError` if memory was refused.
///
/// # Not specified
/// When memory is refused.
pub(crate) fn start_again(
    alloc: Global,
    machine: Machine,
    limit: Limit,
    lives: &Lives,
    name: &Name,
) -> Result<Machine, AllocError>
    ensures { (w : World) → IsMachine limit w.book machine → IfOk result (λ later.
        LeavesBook limit w (λ steps on. (on ≡ true) × StartsIf (runs machine) name.now steps) later) }
{
    match machine {
        Machine::Runs(life) => Ok(Machine::Runs(life)),
        Machine::Stopped(folder) => {
            let life = start_found(alloc, folder, limit, lives, name)?;
            Ok(Machine::Runs(life))
        }
    }
}

/// Starts a server over what was left, which has found a name, on disks that die in these calls
/// after that.
fn start_found(
    alloc: Global,
    folder: Folder,
    limit: Limit,
    lives: &Lives,
    name: &Name,
) -> Result<Life, AllocError>
    ensures { (w : World) → IsLeftAt limit w.book folder →
        IfOk result (λ life. StartsFound limit w name.now (Machine.Runs life)) }
{
    let endless = Lives {
        takes: u64::MAX,
        notes: u64::MAX,
        reached: 0,
    };
    match find_name(alloc, folder, limit, &endless, name)? {
        Machine::Runs(life) => start_anew(alloc, life, limit, lives),
        // Such disks don't die, but no clause says so.
        Machine::Stopped(_) => Err(AllocError),
    }
}

/// Starts a server over what was left, if none runs, and asks it for a name, by disks whose calls are
/// counted from the first on. If one dies as it finds the name, no server runs.
///
/// # Errors
/// `AllocError` if memory was refused.
///
/// # Not specified
/// When memory is refused, and in which call a disk dies.
pub(crate) fn start_counting(
    alloc: Global,
    machine: Machine,
    limit: Limit,
    lives: &Lives,
    name: &Name,
) -> Result<Machine, AllocError>
    ensures { (w : World) → IsMachine limit w.book machine → IfOk result (λ later.
        LeavesBook limit w (MayStartIf (runs machine) name.now) later) }
{
    match machine {
        Machine::Runs(life) => Ok(Machine::Runs(life)),
        Machine::Stopped(folder) => { start_counted(alloc, folder, limit, lives, name) }
    }
}

/// Starts a server over what was left, and asks it for a name, by disks that die in these calls.
fn start_counted(
    alloc: Global,
    folder: Folder,
    limit: Limit,
    lives: &Lives,
    name: &Name,
) -> Result<Machine, AllocError>
    ensures { (w : World) → IsLeftAt limit w.book folder → IfOk result (StartsFound limit w name.now) }
{
    match find_name(alloc, folder, limit, lives, name)? {
        Machine::Runs(life) => {
            let rest = lives_left(&life, lives);
            let life = start_anew(alloc, life, limit, &rest)?;
            Ok(Machine::Runs(life))
        }
        Machine::Stopped(folder) => Ok(Machine::Stopped(folder)),
    }
}

/// Starts a server over what was left, and asks it for a name.
fn find_name(
    alloc: Global,
    folder: Folder,
    limit: Limit,
    lives: &Lives,
    name: &Name,
) -> Result<Machine, AllocError>
    ensures { (w : World) → IsLeftAt limit w.book folder → IfOk result (AnswersForName limit w name.now) }
{
    let life = start_over(alloc, folder, limit, lives)?;
    let (_reply, machine) = asked(alloc, life, name)?;
    Ok(machine)
}

/// Starts another server over what a server leaves that stops, on disks that die in these calls.
fn start_anew(alloc: Global, life: Life, limit: Limit, lives: &Lives) -> Result<Life, AllocError>
    ensures { (w : World) → IsRunning limit w.book life → IfOk result (BeginsOverLeft limit w.book) }
{
    let folder = take_apart(life.server)?;
    start_over(alloc, folder, limit, lives)
}

/// The calls that are left of these, after those of a server.
fn lives_left(life: &Life, lives: &Lives) -> Lives {
    let server = life.server.server();
    Lives {
        takes: lives.takes.saturating_sub(server.store().disk().calls()),
        notes: lives.notes.saturating_sub(server.journal().disk().calls()),
        reached: lives.reached,
    }
}

/// Starts a server over what was left, on disks that die in these calls.
fn start_over(
    alloc: Global,
    folder: Folder,
    limit: Limit,
    lives: &Lives,
) -> Result<Life, AllocError>
    ensures { (book : Book) → IsLeftAt limit book folder →
        IfOk result (λ life. IsRunning limit (cut_book book) life) }
{
    let Folder { takes, notes } = folder;
    let notes = shown_notes(alloc, &takes, &notes)?;
    Life::begin(alloc, Folder { takes, notes }, limit, lives)
}

/// The path of the folder, twice.
fn folder_twice(alloc: Global) -> Result<(String, String), AllocError>
    ensures one { IfOk result (λ f. string_bytes f.0 ≡ the_folder) }
    ensures two { IfOk result (λ f. string_bytes f.1 ≡ the_folder) }
{
    let one = String::from_str(alloc, FOLDER)?;
    let two = String::from_str(alloc, FOLDER)?;
    Ok((one, two))
}

/// A message reaches a server, which commits its turn, and its replies are put into `out`. If a disk died
/// in this turn, or the commit failed, the machine has stopped, and `out` has no reply: replies are sent
/// after the commit.
///
/// # Errors
/// `AllocError` if the server's folder isn't the one that it started over. That doesn't happen,
/// since its turns keep the folder, but `IsRunning` doesn't say so.
pub(crate) fn turn(
    life: Life,
    message: &Message<'_>,
    out: &mut ArrayVec<Reply, 17>,
) -> Result<Machine, AllocError>
    ensures few { length out.new.items ≤ 17 }
    ensures turned { (limit : ℕ) (w : World) → IsRunning limit w.book life →
        MayCome w (Says (message_of message.now)) →
        IfOk result (λ machine. TurnsMachine limit w (Says (message_of message.now))
        (map reply_of out.new.items) machine) }
{
    let Life { mut server } = life;
    server.turn(message, out);
    // Called for its clause on how many fit.
    let _few = out.len();
    let kept = server.commit();
    if goes_on(&server, kept) {
        return Ok(Machine::Runs(Life { server }));
    }
    out.clear();
    let folder = take_apart(server)?;
    Ok(Machine::Stopped(folder))
}

/// A server is asked: its reply, and the machine. If a disk died in this turn, or the commit failed, the
/// machine has stopped, and there is no reply.
///
/// # Errors
/// As those of `turn`.
pub(crate) fn ask(life: Life, ask: &Ask<'_>) -> Result<(Option<Reply>, Machine), AllocError>
    ensures { (limit : ℕ) (w : World) → IsRunning limit w.book life → IfOk result (λ x.
        TurnsMachine limit w (Asks (asked_name ask.now) (asked_number ask.now)) (written_to x.0) x.1) }
{
    let Life { mut server } = life;
    let reply = server.ask(ask);
    let kept = server.commit();
    if goes_on(&server, kept) {
        return Ok((Some(reply), Machine::Runs(Life { server })));
    }
    let folder = take_apart(server)?;
    Ok((None, Machine::Stopped(folder)))
}

/// The server stops between turns, if one runs.
///
/// # Errors
/// As those of `turn`.
pub(crate) fn stop(machine: Machine) -> Result<Machine, AllocError>
    ensures { (limit : ℕ) (w : World) → IsMachine limit w.book machine → IfOk result (λ later.
        LeavesBook limit w (λ steps on. (on ≡ false) × StopsIf (runs machine) steps) later) }
{
    match machine {
        Machine::Runs(life) => {
            let Life { server } = life;
            let folder = take_apart(server)?;
            Ok(Machine::Stopped(folder))
        }
        Machine::Stopped(folder) => Ok(Machine::Stopped(folder)),
    }
}
