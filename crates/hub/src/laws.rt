//! Laws of runs, each the contract of a function that does nothing.

ghost use Rattle.std.specs.Prelude.{◌≡◌, ℕ, List};
ghost use Rattle.histories.specs.History.{History};
ghost use Rattle.hub.specs.Asking.{AskingIsAStep, EachEventAsks, EachPlaceAsks, OneAsking, PrefixesRun};
ghost use Rattle.hub.specs.Asking.{WholeRequestsAsk};
ghost use Rattle.hub.specs.Histories.{EventsAsked};
ghost use Rattle.hub.specs.World.{World, Run};
ghost use Rattle.hub.specs.declared.event.Event.{Event};

/// A run of events from a world has one list of replies, and one world after it; its events asked one
/// history; and it is a run of its first events, and then one of the others.
pub fn run_laws()
    ensures replies { (w : World) (events : List Event) (one other : List (List ℕ)) (after next : World)
        → Run w events one after → Run w events other next → one ≡ other }
    ensures world { (w : World) (events : List Event) (one other : List (List ℕ)) (after next : World)
        → Run w events one after → Run w events other next → after ≡ next }
    ensures histories { (w : World) (events : List Event) (replies others : List (List ℕ)) (one other : History)
        (after next : World) → EventsAsked w events replies one after → EventsAsked w events others other next
        → one ≡ other }
    ensures prefixes { PrefixesRun }
{}

/// Each event of a run asks one thing of the broker, or nothing. What a whole request asks is asked of the
/// broker as it is then; its outcome is that of the step, and makes the reply and the next broker.
pub fn asking_laws()
    ensures events { EachEventAsks }
    ensures places { EachPlaceAsks }
    ensures one { OneAsking }
    ensures step { AskingIsAStep }
    ensures requests { WholeRequestsAsk }
{}
