//! Laws of frames. Each function does nothing: its contract is the law.
ghost use Rattle.std.specs.Prelude.{◌≡◌, ◌≢◌, ℕ, ◌<◌, ◌≤◌, List, ◌++◌, length};
ghost use Rattle.std.specs.List.{All};
ghost use Rattle.rast_frames.specs.Fronts.{Fronts};
ghost use Rattle.rast_frames.specs.Reading.{Reads, Waiting, come, frames};
ghost use Rattle.rast_frames.specs.declared.header.TheConstants.{MAX_STATED};
ghost use Rattle.rast_frames.specs.declared.front.Front.{Front};
ghost use Rattle.rast_frames.specs.declared.front.Front.TheVariants.{Part};

/// Bytes have one front.
pub fn one_front()
    ensures { (limit : ℕ) (s : List ℕ) (f g : Front) → Fronts limit s f → Fronts limit s g → f ≡ g }
{}

/// A front that is more than the beginning of a message stays what it is, whatever bytes come after.
pub fn stays_read()
    ensures { (limit : ℕ) (s t : List ℕ) (f : Front) → Fronts limit s f → f ≢ Part → Fronts limit (s ++ t) f }
{}

/// What was written is read, message by message, whatever bytes come after; a message is at most as long as the limit.
pub fn reads_written()
    ensures { (limit : ℕ) (ms : List (List ℕ)) (rest : List ℕ) → All (λ m. (length m ≤ limit) × (length m < MAX_STATED)) ms
        → Reads limit (frames ms ++ rest) ms rest }
{}

/// What waits does not depend on how the stream is cut into pieces.
pub fn any_cut()
    ensures { (w : Waiting) (a b : List ℕ) → come (come w a) b ≡ come w (a ++ b) }
{}
