//! What follows of the order in which a worker takes users. The law is the contract of a function
//! that does nothing.
ghost use Rattle.cam6_pool.specs.Laws.{UsersAreServedInRounds};

/// In takes in turn that neither take a certain user's command nor pass over this user, there are
/// fewer takes than users.
pub fn users_are_served_in_rounds()
    ensures law { UsersAreServedInRounds }
{}
