use thiserror::Error;

/// Why a step of a join takes nothing from the segment that came.
#[derive(Clone, Copy, Debug, Error)]
pub enum JoinFault {
    /// The segment has no MP_JOIN of the step's form. One of another form counts as absent, as does any other option.
    #[error("no MP_JOIN of this step")]
    NoOption,
    /// The HMAC is not that of the peer.
    #[error("the HMAC of the join is wrong")]
    BadHmac,
}
