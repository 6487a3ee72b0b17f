//! A law of jobs: what is public here is a theorem, and the function does nothing.
ghost use Rattle.desk_state.specs.Laws.{EachJobLeadsOn};

/// `px_plane::Picture::lay` may lay the job of any cut of a history, and over the picture of the cut before it, which is
/// black before the first one, it leaves the picture of the cut.
pub fn each_job_leads_to_the_next_picture()
    ensures { EachJobLeadsOn }
{}
