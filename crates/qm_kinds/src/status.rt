// The statuses with which runs end, where more than one crate names them.

/// The status of a run that ended well. OpenVMS calls it `SS$_NORMAL`.
pub const NORMAL_STATUS: u32 = 1;

/// The status of a run that was cut short. OpenVMS calls it `SS$_ABORT`.
pub const ABORTED_STATUS: u32 = 44;
