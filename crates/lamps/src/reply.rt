// What a member answers, or that it does not: a Return Result, a Return Error, a Reject and an expiry of T4 or T5 all do the same. A reply settles
// the pending request that has its call, its member, its number and its On or Off.

ghost use Rattle.std.specs.Prelude.{◌≡◌, ◌+◌, ◌<◌, ◌≤◌, true, false, MatchOption};
ghost use Rattle.table.specs.Places.{place_count};
ghost use Rattle.lamps.specs.Members.{is_member};
ghost use Rattle.lamps.specs.Reply.{same_request, is_pending, find_pending, refusal_number, settled_at, refused_reply, settled_of};

use crate::members::{Indication, Lamp, Lamps, Timer, is_member};
use table::{Call, Invoke, Place, search};

#[derive(Clone, Copy)]
pub struct Reply {
    pub call: Call,
    // any number: one that is no member's is refused by 31
    pub member: u8,
    pub invoke: Invoke,
    pub indication: Indication,
}

// A reply of one of the eight members.
#[derive(Clone, Copy)]
struct MemberReply {
    reply: Reply,
    ghost from_1: { 1 ≤ reply.member },
    ghost to_8: { reply.member ≤ 8 },
}

// The place whose request a reply settles, and the timer that stops there for the member.
#[derive(Clone, Copy)]
pub struct Settled {
    pub place: Place,
    pub stopped: Timer,
}

#[derive(Clone, Copy, PartialEq, Eq, Debug)]
pub enum ReplyRefusal {
    NoSuchMember = 31,
    NotPending = 32,
}

// What a reply came to, and the lamps after it: those before it where it is refused.
#[derive(Clone, Copy)]
pub struct Settlement {
    pub lamps: Lamps,
    pub answer: Result<Settled, ReplyRefusal>,
}

// The paper's number.
impl From<ReplyRefusal> for u8 {
    ghost from_gives = { λ w n. n ≡ refusal_number w };

    fn from(w: ReplyRefusal) -> u8 {
        w as u8
    }
}

impl Reply {
    // Are On or Off, the number and the call those of the request?
    fn same_request(self, x: Lamp) -> bool
        ensures { result ≡ same_request self x }
    {
        x.indication == self.indication
            && x.invoke == self.invoke
            && search::same_call(x.call, self.call)
    }
}

impl MemberReply {
    fn of(reply: Reply) -> Option<MemberReply>
        ensures { MatchOption result (is_member reply.member ≡ false) (λ m. (is_member reply.member ≡ true) × (m.reply ≡ reply)) }
    {
        if is_member(reply.member) {
            Some(MemberReply { reply })
        } else {
            None
        }
    }

    // The index of the member.
    fn index(self) -> usize
        ensures { result + 1 ≡ self.reply.member }
    {
        (self.reply.member - 1) as usize
    }

    // Is it the request's, and has the member still to reply to that?
    fn is_pending(self, x: Lamp) -> bool
        ensures { result ≡ is_pending self.reply x }
    {
        x.pending[self.index()] && self.reply.same_request(x)
    }

    // The lowest index where it is pending.
    fn find_pending(self, l: Lamps) -> Option<usize>
        ensures { result ≡ find_pending self.reply l.places }
    {
        l.places.iter().position(|x| self.is_pending(*x))
    }

    // The member has replied at the place with this index.
    fn settle_at(self, l: Lamps, i: usize) -> Settlement
        requires { i < place_count }
        ensures { result ≡ settled_at l self.reply i }
    {
        let mut next = l;
        next.places[i].pending[self.index()] = false;
        Settlement {
            lamps: next,
            answer: Ok(Settled {
                place: Place::at(i),
                stopped: l.places[i].indication.timer(),
            }),
        }
    }
}

fn refuse(l: Lamps, w: ReplyRefusal) -> Settlement
    ensures { result ≡ refused_reply l w }
{
    Settlement {
        lamps: l,
        answer: Err(w),
    }
}

// A reply of a member, or an expiry. Any lamps and any reply have an answer.
pub fn settle(l: Lamps, r: Reply) -> Settlement
    ensures { result ≡ settled_of l r }
{
    let Some(m) = MemberReply::of(r) else {
        return refuse(l, ReplyRefusal::NoSuchMember);
    };
    match m.find_pending(l) {
        Some(i) => m.settle_at(l, i),
        None => refuse(l, ReplyRefusal::NotPending),
    }
}
