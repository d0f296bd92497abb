// Laws of the definitions alone.
ghost use Rattle.lpc_subsys.specs.Laws.{KeptGoesOn, KeptIsSmall, KeptTellsReply, OthersDontShow, RefusedCountsForNothing, ServesClients, WorkedReplies};
ghost use Rattle.lpc_subsys.specs.Profile.{ServerProfile};

/// The limits are those of this project's profile.
pub fn law_profile()
    ensures { ServerProfile }
{}

/// A process has a state exactly where it is among the clients for which the server stands.
pub fn law_served_clients_have_states()
    ensures { ServesClients }
{}

/// What is kept of a client is enough, whatever its requests were: each request changes it by what the request asks for,
/// and it tells the reply that the list of requests gives.
pub fn law_kept_is_enough()
    ensures goes_on { KeptGoesOn }
    ensures tells_reply { KeptTellsReply }
{}

/// What is kept of a client is bounded, whatever its requests were.
pub fn law_kept_is_small()
    ensures { KeptIsSmall }
{}

/// A request that was refused counts for no later one: the replies are those of the list without it.
pub fn law_refused_counts_for_nothing()
    ensures { RefusedCountsForNothing }
{}

/// What other processes do doesn't show in a reply, whatever comes in whatever order: it is the reply that the process
/// would get if it were alone.
pub fn law_others_do_not_show()
    ensures { OthersDontShow }
{}

/// The replies of two worked requests, byte for byte.
pub fn law_worked_replies()
    ensures { WorkedReplies }
{}
