// Laws of both ends. Each is the contract of a function with an empty body.
ghost use Rattle.ic_motion.specs.Passing.{SendsPass, HearsPass};

/// A call that sends nothing of a motion leaves its sending end as it is.
pub fn sends_pass()
    ensures { SendsPass }
{}

/// A call that takes nothing of a motion and halts none of its senders leaves its receiving end as it is.
pub fn hears_pass()
    ensures { HearsPass }
{}
