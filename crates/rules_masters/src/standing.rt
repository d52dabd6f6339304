// What an Announce asks of one record.
ghost use Rattle.std.specs.Prelude.{◌≡◌, map};
ghost use Rattle.rules_masters.specs.Admitting.{standing_of};

use crate::moment::Moment;
use crate::record::{Record, same_key};
use crate::table::Table;
use wire_layout::message::Header;

// Of one record, to an Announce of this sender with this sequenceId. Three truths and no enum: `known` and then `live` are asked of all five, `repeats` of one.
#[derive(Clone, Copy)]
pub struct Standing {
    pub live: bool,
    pub known: bool, // live, and of this sender
    pub repeats: bool, // its last Announce has this sequenceId
}

impl Record {
    // To the Announce with this header.
    #[tactic(auto, unfolding(crate::specs::Records::known_of, crate::specs::Admitting::standing_of))]
    pub fn stands(self, heard: &Header, at: Moment) -> Standing
        ensures { result ≡ standing_of heard.now.source heard.now.sequence at.now at.interval self }
    {
        let last = self.announce.header;
        let live = self.live(at);
        Standing {
            live,
            known: live && same_key(last.source, heard.source),
            repeats: last.sequence == heard.sequence,
        }
    }
}

impl Table {
    // Of each of the five.
    pub fn standings(&self, heard: &Header, at: Moment) -> [Standing; 5]
        ensures { result ≡ map (standing_of heard.now.source heard.now.sequence at.now at.interval) self.now.records }
    {
        self.records.map(|r| r.stands(heard, at))
    }
}
