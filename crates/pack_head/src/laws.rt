//! Laws of heads, over their definitions alone. There is nothing to do when they run.

ghost use Rattle.std.specs.Prelude.{◌≡◌, ◌^◌, List, ℕ};
ghost use Rattle.byte_io.specs.Pieces.{pieces};
ghost use Rattle.pack_head.specs.Heads.{FitsTypes, IsHead, SaysSame, head_text, line_feed};
ghost use Rattle.pack_head.specs.Lines.{IsFirstWrong};
ghost use Rattle.pack_head.specs.declared.head.Head.{Head};
ghost use Rattle.pack_head.specs.declared.limits.TheConstants.{FILES_LIMIT, FILE_LEN_LIMIT, NAME_LIMIT};

/// The law of heads: what their texts say, and what a wrong line says.
pub fn head_law()
    // No line of a head's text is wrong: a text that is refused with a line is no head's.
    ensures right { (head : Head) (number : ℕ) → FitsTypes head → IsHead head
        → ¬ (IsFirstWrong 0 (pieces line_feed (head_text head)) number) }
    // A text is that of one head at most.
    ensures one_head { (a b : Head) → FitsTypes a → FitsTypes b → IsHead a → IsHead b
        → head_text a ≡ head_text b → SaysSame a b }
    // One line at most is the first wrong one.
    ensures one_line { (lines : List (List ℕ)) (m n : ℕ) → IsFirstWrong 0 lines m
        → IsFirstWrong 0 lines n → m ≡ n }
{}

/// A law: the limits of heads, as numbers.
pub fn limits_law()
    ensures files { FILES_LIMIT ≡ 65535 }
    ensures len { FILE_LEN_LIMIT ≡ 2 ^ 48 }
    ensures name { NAME_LIMIT ≡ 255 }
{}
