//! Laws: no threads wait in a circle where each request that is to wait was asked about before. Each premise on two tables is the
//! clause of the call of `Locks` that leads from the old one to the new one.
ghost use Rattle.wait_graph.specs.Laws.{EmptyHasNoCycle, UnchangedKeepsNoCycle, GrantKeepsNoCycle, WaitKeepsNoCycle, WithdrawKeepsNoCycle, ReleaseKeepsNoCycle, ReleaseAllKeepsNoCycle, TellKeepsNoCycle};

/// Law: no threads wait in a circle where there are no entries, as after `Locks::new`.
pub fn empty_has_no_cycle()
    ensures { EmptyHasNoCycle }
{}

/// Law: a call that changes nothing makes no circle: a request that is covered or refused, `next_granted` where none is left.
pub fn unchanged_keeps_no_cycle()
    ensures { UnchangedKeepsNoCycle }
{}

/// Law: a request that is granted at once makes no circle.
pub fn grant_keeps_no_cycle()
    ensures { GrantKeepsNoCycle }
{}

/// Law: a request that waits makes no circle, where `closes_cycle` answered none for it.
pub fn wait_keeps_no_cycle()
    ensures { WaitKeepsNoCycle }
{}

/// Law: `withdraw` makes no circle.
pub fn withdraw_keeps_no_cycle()
    ensures { WithdrawKeepsNoCycle }
{}

/// Law: `release_one` makes no circle.
pub fn release_keeps_no_cycle()
    ensures { ReleaseKeepsNoCycle }
{}

/// Law: `release_all` makes no circle.
pub fn release_all_keeps_no_cycle()
    ensures { ReleaseAllKeepsNoCycle }
{}

/// Law: `next_granted` makes no circle.
pub fn tell_keeps_no_cycle()
    ensures { TellKeepsNoCycle }
{}
