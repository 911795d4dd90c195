ghost use Rattle.std.specs.Prelude.{◌≡◌, ◌<◌};
ghost use Rattle.shm_number.specs.Kept.{kept_at, kept_then, number_of, recalled, verdict};

use crate::counter::Number;
use shm_place::SiteId;
use std::marker::Model;

/// What a call's number says about the call.
#[derive(Clone, Copy, Debug, PartialEq, Eq)]
pub enum Recall<'a, R> {
    /// It has to be executed.
    Fresh,
    /// It was executed last; this was the reply.
    Again(&'a R),
    /// It was executed, or given up, before the last one.
    Old,
}

/// The number of each site's last call, and the reply to it. So the home tells a repeated call from a new one.
#[derive(Drop)]
pub struct KeptReply<R> {
    kept: [Option<(Number, R)>; 16],
}

impl<R> Model for KeptReply<R> {
    ghost use Rattle.std.specs.Prelude.{◌≡◌, ℕ, List, Option, length};

    ghost Value = { List (Option (ℕ × R)) };

    ghost view = { λ replies. replies.kept };

    ghost invariant = { λ replies. length replies.kept ≡ 16 };

    ghost inverse = { λ kept. record { kept = kept } };
}

impl<R: Copy> KeptReply<R> {
    /// Nothing is kept for any site.
    pub fn new() -> KeptReply<R>
        ensures { kept_at result ≡ (λ _. None) }
    {
        KeptReply { kept: [None; 16] }
    }

    /// What is kept for each site, in the order of the sites, is this.
    pub fn restored(kept: [Option<(Number, R)>; 16]) -> KeptReply<R>
        ensures { result ≡ kept }
    {
        KeptReply { kept }
    }

    /// The number of the site's last call, and the reply to it. None: nothing is kept for the site.
    pub fn last(&self, site: SiteId) -> Option<(Number, R)>
        requires { site < 16 }
        ensures { result ≡ kept_at self.now site }
    {
        self.kept[site.0 as usize]
    }

    /// What is kept for each site, in the order of the sites.
    pub fn replies(&self) -> [Option<(Number, R)>; 16]
        ensures { result ≡ self.now }
    {
        let mut replies = [None; 16];
        replies.copy_from_slice(&self.kept);
        replies
    }

    /// Looks the number of a call from `site` up. Where nothing is kept, the last number counts as 0.
    pub fn ask(&self, site: SiteId, number: Number) -> Recall<'_, R>
        requires { site < 16 }
        ensures { recalled result ≡ verdict (kept_at self.now site) number }
    {
        match &self.kept[site.0 as usize] {
            None => {
                if number == 0 {
                    return Recall::Old;
                }
                Recall::Fresh
            }
            Some((last, reply)) => {
                if number < *last {
                    return Recall::Old;
                }
                if number == *last {
                    return Recall::Again(reply);
                }
                Recall::Fresh
            }
        }
    }

    /// Keeps the reply to the call of this number, in place of what was kept for the site.
    pub fn keep(&mut self, site: SiteId, number: Number, reply: R)
        requires site { site < 16 }
        requires above { number_of (kept_at self.old site) < number }
        ensures { kept_at self.new ≡ kept_then (kept_at self.old) site number reply }
    {
        self.kept[site.0 as usize] = Some((number, reply));
    }

    /// The same numbers and replies.
    pub fn copy(&self) -> KeptReply<R>
        ensures { result ≡ self.now }
    {
        let mut kept = [None; 16];
        kept.copy_from_slice(&self.kept);
        KeptReply { kept }
    }
}
