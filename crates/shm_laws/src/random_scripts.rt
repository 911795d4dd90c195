//! Random scripts, whose outcome an independent program computed: the definitions give the same.

ghost use Rattle.shm_model.specs.World.{New, Preset, Framed};
ghost use Rattle.shm_laws.specs.Rows.Script.{Plays};
ghost use Rattle.shm_laws.specs.Rows.Random1;
ghost use Rattle.shm_laws.specs.Rows.Random2;
ghost use Rattle.shm_laws.specs.Rows.Random3;
ghost use Rattle.shm_laws.specs.Rows.Random4;
ghost use Rattle.shm_laws.specs.Rows.Random5;

/// 2 sites, 3 pages, 1 frame, 104 events.
#[tactic(auto, using(crate::proofs::Played::Random1::first_random_script))]
pub fn first_random_script()
    ensures row { Plays (Framed 2 3 1) Random1.first_random_script }
{}

/// 2 sites, 3 pages, 1 frame, 109 events.
#[tactic(auto, using(crate::proofs::Played::Random1::second_random_script))]
pub fn second_random_script()
    ensures row { Plays (Framed 2 3 1) Random1.second_random_script }
{}

/// 4 sites, 1 page, 1 frame, 106 events.
#[tactic(auto, using(crate::proofs::Played::Random2::third_random_script))]
pub fn third_random_script()
    ensures row { Plays (Framed 4 1 1) Random2.third_random_script }
{}

/// 2 sites, 1 page, 104 events.
#[tactic(auto, using(crate::proofs::Played::Random2::fourth_random_script))]
pub fn fourth_random_script()
    ensures row { Plays (Preset 2 1) Random2.fourth_random_script }
{}

/// 2 sites, 1 page, 1 frame, 104 events.
#[tactic(auto, using(crate::proofs::Played::Random3::fifth_random_script))]
pub fn fifth_random_script()
    ensures row { Plays (Framed 2 1 1) Random3.fifth_random_script }
{}

/// 2 sites, 2 pages, 1 frame, 110 events.
#[tactic(auto, using(crate::proofs::Played::Random3::sixth_random_script))]
pub fn sixth_random_script()
    ensures row { Plays (Framed 2 2 1) Random3.sixth_random_script }
{}

/// 3 sites, 3 pages, 107 events.
#[tactic(auto, using(crate::proofs::Played::Random4::seventh_random_script))]
pub fn seventh_random_script()
    ensures row { Plays (Preset 3 3) Random4.seventh_random_script }
{}

/// 4 sites, 2 pages, 2 frames, 104 events.
#[tactic(auto, using(crate::proofs::Played::Random4::eighth_random_script))]
pub fn eighth_random_script()
    ensures row { Plays (Framed 4 2 2) Random4.eighth_random_script }
{}

/// 2 sites, 2 pages, 1 frame, 104 events.
#[tactic(auto, using(crate::proofs::Played::Random5::ninth_random_script))]
pub fn ninth_random_script()
    ensures row { Plays (Framed 2 2 1) Random5.ninth_random_script }
{}

/// 3 sites, 100 events.
#[tactic(auto, using(crate::proofs::Played::Random5::tenth_random_script))]
pub fn tenth_random_script()
    ensures row { Plays (New 3) Random5.tenth_random_script }
{}
