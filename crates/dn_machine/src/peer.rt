//! What a node keeps of a peer.

/// What a node keeps of a peer.
#[derive(Clone, Copy, Debug)]
pub struct Peer {
    /// From which tic on it is sent commands next, if the node still keeps the commands from there on.
    pub resend: u32,
    /// Whether the next packet asks it for a resend.
    pub want: bool,
    /// For how many more of its packets further requests are ignored, after one was honoured (`d_net.c`,
    /// RESENDCOUNT).
    pub pause: u8,
    /// The tic after its last command, once an EXIT packet has told it.
    pub end: Option<u32>,
}
