//! An observer of a server's rounds, that serves operators.
ghost use Rattle.std.specs.Prelude.{◌≡◌, ◌<◌, ℕ, IfOk, Some};

use crate::growth::{Growth, note_growth};
use crate::name_tally::NAMES;
use crate::snapshots::{Surroundings, snapshot_of};
use crate::tallied::Tallied;
use bw_operators::{AllowList, OPERATORS, Operators, StatusPort};
use bw_serve::{RoundObserver, RoundReport};
use bw_session::HasTable;
use bw_status::{Answer, response};
use std::alloc::{AllocError, Global};

/// Serves operators after each round: at most one response, and no call waits.
#[derive(Drop)]
pub(crate) struct StatusObserver<'a, P: StatusPort> {
    alloc: Global,
    port: P,
    operators: Operators<P::Link>,
    /// When each name grew last, at the place of its counts.
    growth: Vec<Growth>,
    /// How many takes the server resumed; None without journals.
    resumed: Option<u64>,
    /// Which names may come from which addresses.
    allow: &'a AllowList,
}

impl<'a, P: StatusPort + Drop> StatusObserver<'a, P> {
    ghost use Rattle.bw_operators.specs.OperatorPlaces.{AreConnections, IsFreeAt, LeavesOtherPlaces};
    ghost use Rattle.bw_operators.specs.OperatorPlaces.{asked_at, place_count};
    ghost use Rattle.bw_serve_status.specs.Growths.{no_growth};
    ghost use Rattle.bw_serve_status.specs.Looks.{Accepts, RespondsToOne, ShowsIn, ShowsOrCloses};
    ghost use Rattle.bw_serve_status.specs.Looks.{moment_of};

    /// An observer that serves those who connect to this port.
    ///
    /// # Errors
    /// `AllocError` if memory was refused.
    pub(crate) fn new(
        alloc: Global,
        port: P,
        resumed: Option<u64>,
        allow: &'a AllowList,
    ) -> Result<StatusObserver<'a, P>, AllocError>
        ensures connections { IfOk result (λ o. AreConnections P.Link.Link o.operators) }
        ensures port { IfOk result (λ o. o.port ≡ port) }
        ensures resumed { IfOk result (λ o. o.resumed ≡ resumed) }
        ensures allow { IfOk result (λ o. o.allow.now ≡ allow.now) }
        ensures places { IfOk result (λ o. place_count o.operators ≡ 32) }
        ensures free { IfOk result (λ o. (place : ℕ) → place < 32 → IsFreeAt o.operators place) }
        ensures growth { IfOk result (λ o. o.growth.items ≡ no_growth) }
    {
        let none = Growth {
            first: 0,
            stored: 0,
            at: None,
        };
        Ok(StatusObserver {
            alloc,
            port,
            operators: Operators::new(alloc)?,
            growth: Vec::from_elem(alloc, none, NAMES)?,
            resumed,
            allow,
        })
    }

    /// Accepts operators as long as there are places for them, at this time, in milliseconds: free
    /// ones first, then those of connections to which nothing is to be sent.
    fn accept(&mut self, now: u64)
        ensures kept { moment_of P.StatusPort self.new ≡ moment_of P.StatusPort self.old }
        ensures accepts { Accepts now self.old.operators self.new.operators }
        ensures connections { AreConnections P.Link.Link self.old.operators →
            AreConnections P.Link.Link self.new.operators }
    {
        for _operator in 0..OPERATORS {
            let Some(place) = self.operators.next_place(now) else {
                return;
            };
            let Some(link) = self.port.accept() else {
                return;
            };
            self.operators.admit(self.alloc, place, link, now);
        }
    }

    /// Responds to the operator who asks and has been connected for longest, if one asks, and then
    /// makes another step of each connection, at this time, in milliseconds.
    fn respond_to_oldest<T: HasTable>(
        &mut self,
        server: &Tallied<T>,
        round: &RoundReport<'_>,
        now: u64,
    )
        requires { now ≡ P.time self.old.port }
        ensures kept { moment_of P.StatusPort self.new ≡ moment_of P.StatusPort self.old }
        ensures responds { RespondsToOne T.holds P.StatusPort P.Link.Link server.now
            round.now (moment_of P.StatusPort self.new) self.old.operators self.new.operators }
        ensures connections { AreConnections P.Link.Link self.old.operators →
            AreConnections P.Link.Link self.new.operators }
    {
        let Some((place, answer)) = self.operators.asked() else {
            return;
        };
        self.respond(server, round, place, answer, now);
        self.operators.work(now);
        self.wake_if_asked();
    }

    /// Responds to the operator at a place, at this time, in milliseconds; where memory is refused
    /// for it, the connection is closed.
    fn respond<T: HasTable>(
        &mut self,
        server: &Tallied<T>,
        round: &RoundReport<'_>,
        place: usize,
        answer: Answer,
        now: u64,
    )
        requires time { now ≡ P.time self.old.port }
        requires asked { asked_at self.old.operators place ≡ Some answer }
        ensures kept { moment_of P.StatusPort self.new ≡ moment_of P.StatusPort self.old }
        ensures responds { ShowsOrCloses T.holds P.StatusPort server.now round.now
            (moment_of P.StatusPort self.new) place answer self.old.operators self.new.operators }
        ensures others { LeavesOtherPlaces place self.old.operators self.new.operators }
        ensures connections { AreConnections P.Link.Link self.old.operators →
            AreConnections P.Link.Link self.new.operators }
    {
        match self.response_of(server, round, answer, now) {
            Ok(response) => self.operators.answer(place, response),
            Err(_) => self.operators.close(place),
        }
    }

    /// A response with what the server is doing, at this time, in milliseconds.
    ///
    /// # Errors
    /// `AllocError` if memory was refused.
    fn response_of<T: HasTable>(
        &mut self,
        server: &Tallied<T>,
        round: &RoundReport<'_>,
        answer: Answer,
        now: u64,
    ) -> Result<Vec<u8>, AllocError>
        requires { now ≡ P.time self.old.port }
        ensures kept { moment_of P.StatusPort self.new ≡ moment_of P.StatusPort self.old }
        ensures operators { self.new.operators ≡ self.old.operators }
        ensures shows { IfOk result (λ bytes. ShowsIn T.holds P.StatusPort server.now
            round.now (moment_of P.StatusPort self.new) answer bytes.items) }
    {
        let left_out = self.port.left_out(self.alloc)?;
        let around = Surroundings {
            now,
            since: self.port.since(),
            resumed: self.resumed,
            memory: self.port.memory(),
            lines_dropped: self.port.lines_dropped(),
            has_folder: self.port.has_folder(),
            begins: self.port.begins(),
            growth: self.growth.as_slice(),
            allow: self.allow,
        };
        let snapshot = snapshot_of(self.alloc, server, round, around, left_out)?;
        response(self.alloc, answer, &snapshot)
    }

    /// Makes the next round begin at once, if another operator asks.
    fn wake_if_asked(&mut self)
        ensures kept { moment_of P.StatusPort self.new ≡ moment_of P.StatusPort self.old }
        ensures operators { self.new.operators ≡ self.old.operators }
    {
        if self.operators.asked().is_some() {
            self.port.wake();
        }
    }
}

impl<T: HasTable, P: StatusPort + Drop> RoundObserver<Tallied<T>> for StatusObserver<'_, P> {
    ghost use Rattle.bw_serve_status.specs.Looks.{Looks};

    ghost looks = { Looks T.holds P.StatusPort P.Link.Link };

    fn look(&mut self, server: &Tallied<T>, round: &RoundReport<'_>) {
        let now = self.port.now();
        note_growth(self.growth.as_mut_slice(), server.tallies().names(), now);
        self.operators.work(now);
        self.accept(now);
        self.respond_to_oldest(server, round, now);
    }
}
