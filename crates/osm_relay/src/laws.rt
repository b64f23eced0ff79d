//! Laws of relayed responses, and of limits. There is nothing to do when they run.

ghost use Rattle.std.specs.Prelude.{◌≡◌, ◌++◌, ◌^◌, ℕ, Bool, List, Option, Some, true};
ghost use Rattle.osm_relay.specs.Honest.{IsHonestlyTold, IsServed};
ghost use Rattle.osm_relay.specs.Logs.{Log};
ghost use Rattle.osm_relay.specs.Relayed.{IsTakenAt};
ghost use Rattle.osm_relay.specs.declared.limits.TheConstants.{CLIENT_PIECE, CONVERSATION_LIMIT, MIRROR_PIECE, REPLY_LIMIT};
ghost use Rattle.osm_relay.specs.declared.terms.Terms.{Terms};

/// A law: the limits of relaying, as numbers.
pub fn limits_law()
    // A reply's body may have 2^28 bytes.
    ensures reply { REPLY_LIMIT ≡ 2 ^ 28 }
    // 64 conversations may be open at a time.
    ensures conversations { CONVERSATION_LIMIT ≡ 64 }
    // One read of a client gives 8,192 bytes at most, and one of a mirror 65,536.
    ensures client { CLIENT_PIECE ≡ 2 ^ 13 }
    ensures mirror { MIRROR_PIECE ≡ 2 ^ 16 }
{}

/// A law: where the last mirror that was asked has sent the one proof of the client's query over a set with this root, the
/// client isn't told a fault of a mirror (502). What it takes is a beginning of the response with the document of the
/// query's meaning, or of one of the two that say 503: that memory ran out, or, only where the terms have a budget and the
/// proof passes it, that there is too much work. And it is all of it where the conversation ends as a whole one.
/// So [`Conversation::promise`](crate::Conversation::promise) says no less of honest mirrors.
pub fn honest_mirrors_are_relayed()
    ensures begun { (terms : Terms) (response : List ℕ) (c m : Log) (ending : Option Bool)
        → (served : IsServed terms c m response) → IsTakenAt ending terms c (Some m)
        → (rest : List ℕ) × IsHonestlyTold terms c m response served (c.took ++ rest) }
    ensures whole { (terms : Terms) (response : List ℕ) (c m : Log)
        → (served : IsServed terms c m response) → IsTakenAt (Some true) terms c (Some m)
        → IsHonestlyTold terms c m response served c.took }
{}
