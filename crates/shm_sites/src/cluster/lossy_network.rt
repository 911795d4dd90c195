//! The network between the sites' threads, which loses and repeats: what goes on of that which a step sent.
ghost use Rattle.std.specs.Prelude.{◌≡◌, ◌++◌, List, IfOk, OnOk};
ghost use Rattle.shm_sites.specs.Cluster.Carried.{by_fate, carried, drawn_for, generator_of};
ghost use Rattle.shm_sites.specs.Cluster.Posted.{all_sent, sent_of};
ghost use Rattle.shm_sites.specs.Cluster.Sent.{Sent};

use crate::cluster::envelope_fate::Fate;
use crate::cluster::posted_envelope::Posted;
use rand_core::utils::NextWord;
use rand_pcg::Lcg64Xsh32;
use shm_place::SiteId;
use std::alloc::{AllocError, Allocator};

/// From what the fates of a site's envelopes are drawn: the generator of this seed that has the site's number for its stream.
pub(crate) fn draws_of(seed: u64, site: SiteId) -> Lcg64Xsh32
    ensures { result ≡ generator_of seed site }
{
    Lcg64Xsh32::new(seed, u64::from(site.0))
}

/// Draws a number for each of these envelopes, and by it passes none, one or two copies on. Where memory is refused it passes none on, and
/// still draws their numbers.
pub(crate) fn carry<A: Allocator + Copy>(
    alloc: A,
    posted: Vec<Posted<A>, A>,
    draws: &mut Lcg64Xsh32,
) -> Result<Vec<Posted<A>, A>, AllocError>
    ensures drawn { draws.new ≡ drawn_for (all_sent posted.items) draws.old }
    ensures carried { IfOk result (λ on. all_sent on.items ≡ carried (all_sent posted.items) draws.old) }
{
    let mut on = Ok(Vec::new(alloc));
    'envelopes: for one in posted {
        let fate = Fate::of(draws.next_word());
        on = with(on, one, fate);
    }
    on
}

/// Adds this envelope, by its fate, to the envelopes that go on.
fn with<A: Allocator + Copy>(
    on: Result<Vec<Posted<A>, A>, AllocError>,
    posted: Posted<A>,
    fate: Fate,
) -> Result<Vec<Posted<A>, A>, AllocError>
    ensures { (before : List Sent) → IfOk on (λ on. all_sent on.items ≡ before)
        → IfOk result (λ more. all_sent more.items ≡ before ++ by_fate fate (sent_of posted)) }
{
    let Ok(mut all) = on else {
        return Err(AllocError);
    };
    match add(&mut all, posted, fate) {
        Ok(()) => Ok(all),
        Err(e) => Err(e),
    }
}

fn add<A: Allocator + Copy>(
    all: &mut Vec<Posted<A>, A>,
    posted: Posted<A>,
    fate: Fate,
) -> Result<(), AllocError>
    ensures { OnOk result (all_sent all.new.items ≡ all_sent all.old.items ++ by_fate fate (sent_of posted)) }
{
    match fate {
        Fate::Lost => Ok(()),
        Fate::Once => {
            all.reserve(1)?;
            all.push_reserved(posted);
            Ok(())
        }
        Fate::Twice => {
            let again = posted.copy()?;
            all.reserve(2)?;
            all.push_reserved(again);
            all.push_reserved(posted);
            Ok(())
        }
    }
}
