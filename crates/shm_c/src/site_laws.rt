//! Laws of single sites: each is the contract of a function without parameters, which does nothing.
ghost use Rattle.std.specs.Prelude.{◌≡◌, ◌≢◌, ◌<◌, ℕ, Some, false};
ghost use Rattle.shm_model.specs.Message.{Envelope, Input, Deliver};
ghost use Rattle.shm_model.specs.World.{Opening, World, is_full, live, next, opened, sites_of, step_at, stepped};
ghost use Rattle.shm_model.specs.declared.event.Event.TheVariants as event;
ghost use Rattle.shm_c.specs.Seat.{Seat, begun_seat};
ghost use Rattle.shm_c.specs.SiteOf.{IsSiteOf};
ghost use Rattle.shm_c.specs.SiteSteps.{seat_after, step_of};

/// Each step of a site that is one of a world's is an event of that world, with its answer and what it sends; the site stays one of it, and
/// so does each other site. Sites that begin alike are those of a world that begins so. So over a network that hands over only what was
/// sent, single sites make a run of the world, and what holds of every run holds of them.
pub fn each_step_is_an_event_of_the_world()
    ensures begin { (o : Opening) (me : ℕ) → me < sites_of o → IsSiteOf (opened o) (begun_seat o me) }
    ensures own { (w : World) (seat : Seat) (input : Input) → IsSiteOf w seat → is_full w ≡ false
        → step_at w seat.me input ≡ stepped w seat.me input (step_of seat input) }
    ensures handed { (w : World) (seat : Seat) (number : ℕ) (e : Envelope) → IsSiteOf w seat → is_full w ≡ false → live w number ≡ Some e → e.to ≡ seat.me
        → next w (event.Repeat number) ≡ stepped w seat.me (Deliver e) (step_of seat (Deliver e)) }
    ensures stays { (w : World) (seat : Seat) (input : Input) → IsSiteOf w seat
        → IsSiteOf (stepped w seat.me input (step_of seat input)).world (seat_after seat (step_of seat input)) }
    ensures others { (w : World) (seat other : Seat) (input : Input) → IsSiteOf w other → other.me ≢ seat.me
        → IsSiteOf (stepped w seat.me input (step_of seat input)).world other }
{}
