// What each call of a board answers.
use crate::answer::Answer;
use crate::fault::ChannelFault;
use control::fault::TableFault;

#[derive(Clone, Copy, Debug, PartialEq, Eq)]
pub enum Outcome {
    Wrote(Result<(), ChannelFault>),
    WroteTable(Result<(), TableFault<ChannelFault>>),
    // the byte of a read register
    ReadStatus(Result<u8, ChannelFault>),
    Opened(Result<(), ChannelFault>),
    Cycled(Result<Answer, ChannelFault>),
    // the number of cycles done
    Ran(Result<usize, ChannelFault>),
    Returned(Result<(), ChannelFault>),
    // the vector
    Acknowledged(Result<u8, ChannelFault>),
    ReturnedFromInterrupt(Result<(), ChannelFault>),
}
