//! What holds of the spellings and of the refusals of messages, whatever reads and writes.

ghost use Rattle.std.specs.Prelude.{◌≡◌, ◌++◌, ℕ, List};
ghost use Rattle.ncc_bolt.specs.declared.message.Request.{Request};
ghost use Rattle.ncc_bolt.specs.declared.message.Response.{Response};
ghost use Rattle.ncc_bolt.specs.Messages.{SpellsRequest, SpellsResponse};
ghost use Rattle.ncc_bolt.specs.Reading.{request_at, response_at};
ghost use Rattle.ncc_bolt.specs.Offence.{ShortExactly, NeverElse, Explained};

/// No spelling of a request begins another's.
pub fn one_request()
    ensures same { (m n : Request) (a b r s : List ℕ) → SpellsRequest m a → SpellsRequest n b → a ++ r ≡ b ++ s → (m ≡ n) × (a ≡ b) }
{}

/// No spelling of a response begins another's.
pub fn one_response()
    ensures same { (m n : Response) (a b r s : List ℕ) → SpellsResponse m a → SpellsResponse n b → a ++ r ≡ b ++ s → (m ≡ n) × (a ≡ b) }
{}

/// What the refusal of a request says of its bytes.
pub fn request_refusals()
    ensures exactly { ShortExactly SpellsRequest request_at }
    ensures never { NeverElse SpellsRequest request_at }
    ensures explained { Explained SpellsRequest request_at }
{}

/// What the refusal of a response says of its bytes.
pub fn response_refusals()
    ensures exactly { ShortExactly SpellsResponse response_at }
    ensures never { NeverElse SpellsResponse response_at }
    ensures explained { Explained SpellsResponse response_at }
{}
