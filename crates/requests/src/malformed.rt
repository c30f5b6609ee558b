//! Why a request is refused before the desk sees it.
ghost use Rattle.std.specs.Prelude.{◌≡◌};

use crate::request::fault::Fault;
use addr::digits;
use arrayvec::ArrayString;

/// Why bytes are no request: the number of their lowest fault.
#[derive(Clone, Copy, Debug, PartialEq, Eq)]
pub struct Malformed {
    pub number: u8,
    /// If a SLURM file (RFC 8416) is refused, the number of the file's own fault.
    pub slurm: Option<u8>,
}

impl Malformed {
    ghost use Rattle.requests.specs.MalformedText.{malformed_text};
    ghost use Rattle.requests.specs.RequestFaults.{too_long};

    /// The answer to a line that is longer than `LINE_LENGTH_LIMIT`.
    pub fn too_long() -> Malformed
        ensures { result ≡ too_long }
    {
        Fault::TooLong.malformed()
    }

    /// The answer to the request, with its line feed.
    pub fn text(&self) -> ArrayString<64>
        ensures { result.bytes ≡ malformed_text self.now }
    {
        let mut text = ArrayString::new();
        text.push_str("{\"malformed\":");
        text.push_str(digits(u64::from(self.number)).as_str());
        if let Some(slurm) = self.slurm {
            text.push_str(",\"slurm\":");
            text.push_str(digits(u64::from(slurm)).as_str());
        }
        text.push_str("}\n");
        text
    }
}
