//! Laws of the grammar and of decoding.

ghost use Rattle.std.specs.Prelude.{◌≡◌, ◌++◌, ℕ, List, length};
ghost use Rattle.wl_grammar.specs.declared.frame.Frame.{Frame};
ghost use Rattle.wl_grammar.specs.Grammar.{IsWellFormed, IsBody, body, spelling};
ghost use Rattle.wl_grammar.specs.Lengths.{IsLength};
ghost use Rattle.wl_frames.specs.Stream.{Reads, Rest, Stop};
ghost use Rattle.wl_frames.specs.declared.device.TheConstants.{READ_LIMIT, PIECE_LEN, BUNDLE_LEN};

/// States that no two frames have the same encoding, and that no encoding is a prefix of another.
pub fn law_encoding()
    ensures one_frame { (bytes : List ℕ) (f g : Frame) → IsBody bytes f → IsBody bytes g → f ≡ g }
    ensures length { (f : Frame) → IsWellFormed f → IsLength (length (body f)) }
    ensures apart { (f g : Frame) (x y : List ℕ) → IsWellFormed f
        → IsWellFormed g → spelling f ++ x ≡ spelling g ++ y → (f ≡ g) × (x ≡ y) }
{}

/// States that a stream is decoded in only one way, and that decoding it in pieces gives the same
/// frames.
pub fn law_decoding()
    ensures one { (stream : List ℕ) (fs gs : List Frame) (s t : Stop)
        → Reads stream fs s → Reads stream gs t → (fs ≡ gs) × (s ≡ t) }
    ensures joins { (stream piece rest : List ℕ) (fs gs : List Frame) (s : Stop)
        → Reads stream fs (Rest rest) → Reads (rest ++ piece) gs s → Reads (stream ++ piece) (fs ++ gs) s }
{}

/// States the value of each limit of this crate. All other contracts cite the limits by name.
pub fn law_limits()
    ensures reads { READ_LIMIT ≡ 1000000 }
    ensures piece { PIECE_LEN ≡ 4096 }
    ensures bundle { BUNDLE_LEN ≡ 32768 }
{}
