//! A server answers messages and asks.
use crate::server::Server;
use arrayvec::ArrayVec;
use bw_exchange::{NotKept, Turns};
use bw_journal::Journal;
use bw_store::TakeStore;
use bw_wire::{Ask, Message, Reply};

impl<S: TakeStore, J: Journal> Turns for Server<S, J> {
    ghost use Rattle.bw_exchange.specs.Commits.{CommitsNothing};
    ghost use Rattle.bw_session.specs.ServerTurns.{ServerTurn};

    ghost answers = { ServerTurn S.TakeStore J.Journal };

    /// Nothing is ever uncommitted.
    ghost committed = { λ _. Unit {0} };

    ghost commits = { CommitsNothing };

    fn turn(&mut self, message: &Message<'_>, replies: &mut ArrayVec<Reply, 17>) {
        Server::turn(self, message, replies);
    }

    fn ask(&mut self, ask: &Ask<'_>) -> Reply {
        Server::ask(self, &ask.name(), ask.number())
    }

    /// Each turn keeps what it answers.
    fn commit(&mut self) -> Result<(), NotKept> {
        Ok(())
    }
}
