// What is kept of clients stands for their requests.
ghost use Rattle.lpc_residents.specs.Kept.{KeptStandsForRequests};

/// A run in which servers keep of each client what its requests come to comes to the same lines as the run in which
/// they keep the requests themselves.
pub fn law_kept_stands_for_requests()
    ensures stands { KeptStandsForRequests }
{}
