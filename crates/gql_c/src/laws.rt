//! Laws of what the calls hand out.

ghost use denote.Param.Send.{IsSend};
ghost use Rattle.gql_c.specs.contracts.handle.Handle as handle;

/// A handle may go from one thread to another, whatever it holds: what it owns says the same to every thread. Handles that share a
/// value count it by atomic counts, and none changes it, so each thread may use a handle of its own at the same time.
pub fn handles_cross_threads()
    ensures { IsSend handle.the_row }
{}
