//! Events of a core, one after the other.
ghost use Rattle.std.specs.Prelude.{◌≡◌, ◌<◌, ◌≤◌, ◌+◌, ◌++◌, [], ◌∷◌, ◌↔◌, IsTrue, IfOk, IfErr, OnErr, MatchOption, vec_len, vec_capacity};
ghost use Rattle.mix_core.specs.Laid.{own_entries};
ghost use Rattle.mix_core.specs.Run.{IsAnswered, IsLastOf, IsReplied, IsRun, MayWithdraw};
ghost use Rattle.mix_core.specs.declared.event.Event.TheVariants.{Add, Take, Withdraw};
ghost use Rattle.mix_core.specs.View.{MayAdd};
ghost use Rattle.mix_core.specs.declared.port.Kind.TheVariants.{Added, Withdrawn};

use crate::event::{Event, Reply};
use crate::port::{Entry, Kind};
use crate::ring::Core;
use snd_base::PcmError;
use std::alloc::Global;

impl Core {
    /// Lets these events happen one after the other, and answers one reply for each.
    ///
    /// The replies are those that a legal history gives after each history that the core represented, where the standing adds are
    /// those of this call's events alone: a withdrawal takes back what this call added. Afterwards the core represents that
    /// history with these events and replies at its end, except the ones that were `Outside`: they change nothing, and are
    /// left out. `unplug` is no event, and the card is gone afterwards where it was before.
    ///
    /// It refuses, with `Memory`, only where no memory is left for the replies and the standing adds. Their room is taken
    /// before the first event, so the core is then as it was.
    pub fn run(&mut self, alloc: Global, events: &[Event]) -> Result<Vec<Reply>, PcmError>
        ensures ok { IfOk result (λ replies. IsRun self.old self.new events.now replies.items) }
        ensures err { OnErr result (self.new ≡ self.old) }
        ensures only_memory { IfErr result (λ e. e ≡ PcmError.Memory) }
    {
        let mut replies = vec![in alloc; Reply::LapEnd; events.len()]?;
        let mut standing = Vec::with_capacity(alloc, events.len())?;
        for (i, event) in events.iter().enumerate() {
            replies[i] = self.reply(*event, &mut standing);
        }
        Ok(replies)
    }

    /// Lets one event happen, and answers the reply to it.
    fn reply(&mut self, event: Event, standing: &mut Vec<Entry>) -> Reply
        requires room { vec_len standing.old < vec_capacity standing.old }
        ensures answer { IsAnswered self.old self.new
            standing.old.items standing.new.items event result }
        ensures len { vec_len standing.new ≤ vec_len standing.old + 1 }
        ensures capacity { vec_capacity standing.old ≤ vec_capacity standing.new }
    {
        match event {
            Event::Add {
                member,
                frame,
                channel,
                sample,
            } => {
                let entry = Entry {
                    member,
                    frame,
                    channel,
                    sample,
                    kind: Kind::Added,
                };
                self.reply_to_add(entry, standing)
            }
            Event::Withdraw {
                member,
                frame,
                channel,
                sample,
            } => {
                let entry = Entry {
                    member,
                    frame,
                    channel,
                    sample,
                    kind: Kind::Withdrawn,
                };
                self.reply_to_withdrawal(entry, standing)
            }
            Event::Take => self.reply_to_take(),
            Event::Publish => {
                self.publish();
                Reply::Published(self.position().frame)
            }
        }
    }

    /// Adds an entry where its member may add there and its frame and channel are not taken yet.
    fn reply_to_add(&mut self, entry: Entry, standing: &mut Vec<Entry>) -> Reply
        requires kind { entry.kind ≡ Added }
        requires room { vec_len standing.old < vec_capacity standing.old }
        ensures answer { IsAnswered self.old self.new standing.old.items standing.new.items
            (Add entry.member entry.frame entry.channel entry.sample) result }
        ensures len { vec_len standing.new ≤ vec_len standing.old + 1 }
        ensures capacity { vec_capacity standing.old ≤ vec_capacity standing.new }
    {
        if !self.may_add(entry) {
            return Reply::Outside;
        }
        if self.late_word(entry.frame, entry.channel).is_some() {
            return Reply::Late;
        }
        self.add(entry);
        keep(standing, entry);
        Reply::In
    }

    /// Withdraws an entry where it is its member's last standing add and its frame and channel are not taken yet.
    fn reply_to_withdrawal(&mut self, entry: Entry, standing: &mut Vec<Entry>) -> Reply
        requires { entry.kind ≡ Withdrawn }
        ensures answer { IsAnswered self.old self.new standing.old.items standing.new.items
            (Withdraw entry.member entry.frame entry.channel entry.sample) result }
        ensures len { vec_len standing.new ≤ vec_len standing.old }
        ensures capacity { vec_capacity standing.old ≤ vec_capacity standing.new }
    {
        let Some(last) = last_of(standing, entry.member) else {
            return Reply::Outside;
        };
        if !self.may_withdraw(entry, standing[last]) {
            return Reply::Outside;
        }
        if self.late_word(entry.frame, entry.channel).is_some() {
            return Reply::Late;
        }
        self.withdraw(entry);
        standing.remove(last);
        Reply::In
    }

    /// Takes the next word where its frame's lap fits a word.
    fn reply_to_take(&mut self) -> Reply
        ensures { IsReplied self.old self.new Take result }
    {
        match self.take() {
            Ok(taken) => Reply::Took {
                frame: taken.frame,
                channel: taken.channel,
                value: taken.value,
            },
            Err(_) => Reply::LapEnd,
        }
    }

    /// Whether an entry's member may add at its frame and channel, be they taken or not.
    fn may_add(&self, entry: Entry) -> bool
        ensures { IsTrue result ↔ MayAdd self.now entry }
    {
        let geometry = self.geometry();
        entry.member < self.members()
            && entry.channel < geometry.channels
            && self.cursor(entry.member).first_free(entry.channel) <= entry.frame
            && geometry.lap(entry.frame) < 4294967295
            && entry.frame < self.position().frame + geometry.frames as u64
    }

    /// Whether an entry's member may withdraw it, where `last` is its last standing add, be the frame and channel taken or not.
    fn may_withdraw(&self, entry: Entry, last: Entry) -> bool
        ensures { IsTrue result ↔ MayWithdraw self.now entry last }
    {
        let geometry = self.geometry();
        entry.member < self.members()
            && entry.channel < geometry.channels
            && last.frame == entry.frame
            && last.channel == entry.channel
            && last.sample == entry.sample
            && self.floor(entry.member).first_free(entry.channel) <= entry.frame
            && entry.frame < self.cursor(entry.member).first_free(entry.channel)
            && entry.frame < self.position().frame + geometry.frames as u64
    }
}

/// Puts an add at the end of the standing ones, for which there is room.
fn keep(standing: &mut Vec<Entry>, entry: Entry)
    requires { vec_len standing.old < vec_capacity standing.old }
    ensures items { standing.new.items ≡ standing.old.items ++ entry ∷ [] }
    ensures len { vec_len standing.new ≡ vec_len standing.old + 1 }
    ensures capacity { vec_capacity standing.old ≤ vec_capacity standing.new }
{
    standing.push(entry).unwrap();
}

/// The place of a member's last standing add.
fn last_of(standing: &[Entry], member: u32) -> Option<usize>
    ensures { MatchOption result (own_entries member standing.now ≡ [])
        (λ i. IsLastOf standing.now member i) }
{
    for i in (0..standing.len()).rev() {
        if standing[i].member == member {
            return Some(i);
        }
    }
    None
}
