use recovery::fault::StreamFault;

// the right to bring snapshot packets to the receiver whose number it carries; only `leave` takes it back
pub struct Join {
    pub(crate) own: u64,
}

// a leave that was refused, with the join that it brought
pub struct Left {
    pub join: Join,
    pub fault: StreamFault,
}
