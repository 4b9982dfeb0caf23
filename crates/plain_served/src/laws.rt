// Laws of methods that service 1 finds.
ghost use Rattle.plain_served.specs.Serving.{MethodsAreServed};

/// A law: where the lookup of a message at a trap finds a method, the service's tests may be made, and the source's step is the error that they name;
/// where they name none, the method's call and the words of its entry do the step.
pub fn methods_are_served()
    ensures { MethodsAreServed }
{}
