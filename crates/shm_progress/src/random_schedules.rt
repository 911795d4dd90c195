//! Ten fair schedules of 16 sites, drawn at random: accesses and segment calls with losses, repeats and restarts, and then two rounds. The
//! definitions compute that the rounds settle each of them; what they leave before the rounds and between them comes from an independent
//! program.
ghost use Rattle.shm_progress.specs.Schedule.{Goes};
ghost use Rattle.shm_progress.specs.Schedules.Random1;
ghost use Rattle.shm_progress.specs.Schedules.Random2;
ghost use Rattle.shm_progress.specs.Schedules.Random3;
ghost use Rattle.shm_progress.specs.Schedules.Random4;
ghost use Rattle.shm_progress.specs.Schedules.Random5;

/// 16 sites, 1 page; 60 events, then rounds of 55 and 16.
#[tactic(auto, using(crate::proofs::Gone::Random1::first_schedule))]
pub fn first_schedule()
    ensures { Goes Random1.first Random1.first_left Random1.first_turned_away }
{}

/// 16 sites, 2 pages; 60 events, then rounds of 164 and 16.
#[tactic(auto, using(crate::proofs::Gone::Random1::second_schedule))]
pub fn second_schedule()
    ensures { Goes Random1.second Random1.second_left Random1.second_turned_away }
{}

/// 16 sites, 2 pages; 60 events, then rounds of 159 and 16.
#[tactic(auto, using(crate::proofs::Gone::Random2::third_schedule))]
pub fn third_schedule()
    ensures { Goes Random2.third Random2.third_left Random2.third_turned_away }
{}

/// 16 sites, 3 pages, 1 frame; 60 events, then rounds of 167 and 16.
#[tactic(auto, using(crate::proofs::Gone::Random2::fourth_schedule))]
pub fn fourth_schedule()
    ensures { Goes Random2.fourth Random2.fourth_left Random2.fourth_turned_away }
{}

/// 16 sites, 3 pages, 1 frame; 60 events, then rounds of 136 and 16.
#[tactic(auto, using(crate::proofs::Gone::Random3::fifth_schedule))]
pub fn fifth_schedule()
    ensures { Goes Random3.fifth Random3.fifth_left Random3.fifth_turned_away }
{}

/// 16 sites, 2 pages; 70 events, then rounds of 105 and 16.
#[tactic(auto, using(crate::proofs::Gone::Random3::sixth_schedule))]
pub fn sixth_schedule()
    ensures { Goes Random3.sixth Random3.sixth_left Random3.sixth_turned_away }
{}

/// 16 sites, 1 page; 70 events, then rounds of 104 and 24. The first round turns 2 requests away.
#[tactic(auto, using(crate::proofs::Gone::Random4::seventh_schedule))]
pub fn seventh_schedule()
    ensures { Goes Random4.seventh Random4.seventh_left Random4.seventh_turned_away }
{}

/// 16 sites, 1 page; 70 events, then rounds of 110 and 27. The first round turns 2 requests away.
#[tactic(auto, using(crate::proofs::Gone::Random4::eighth_schedule))]
pub fn eighth_schedule()
    ensures { Goes Random4.eighth Random4.eighth_left Random4.eighth_turned_away }
{}

/// 16 sites; 90 events, then rounds of 95 and 16.
#[tactic(auto, using(crate::proofs::Gone::Random5::ninth_schedule))]
pub fn ninth_schedule()
    ensures { Goes Random5.ninth Random5.ninth_left Random5.ninth_turned_away }
{}

/// 16 sites; 90 events, then rounds of 121 and 16.
#[tactic(auto, using(crate::proofs::Gone::Random5::tenth_schedule))]
pub fn tenth_schedule()
    ensures { Goes Random5.tenth Random5.tenth_left Random5.tenth_turned_away }
{}
