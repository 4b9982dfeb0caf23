// Worlds that are refused.

/// A row a line: a whole world file without the core text, then `;`, then the line of its refusal behind `world refused `.
pub const REFUSALS: &str = "\
main = (;BadSyntax at 1:9
;MissingCore nil
x = 536870912.;IntTooWide at 1:5
x = -536870913.;IntTooWide at 1:5
x = 'ab;BadToken at 1:5
x = 'a\\q;BadToken at 1:5
x = 'a\\q'.;BadEscape at 1:7
x = \"abc;BadToken at 1:5
x = 3a.;BadToken at 1:5
x = 3.4;BadToken at 1:5
x = Foo.;BadToken at 1:5
x = $.;BadToken at 1:5
x = lobby.y = 3.;BadSyntax at 1:5
self = 3.;BadSyntax at 1:1
resend = 3.;BadSyntax at 1:1
:x.;BadSyntax at 1:1
x = ( | :a | ).;BadSyntax at 1:14
m = ( self.x ).;BadSyntax at 1:7
m = ( 3 + 4 - 5 ).;BadSyntax at 1:13
m = ( (| x = 1 |) ).;BadSyntax at 1:8
m = ( . ).;BadSyntax at 1:7
m = ( ^ ^ 3 ).;BadSyntax at 1:9
m = ( ^ 3. 4 ).;BadSyntax at 1:12
m = ( x _Restart ).;BadSyntax at 1:9
m = ( _Restart: 3 ).;BadSyntax at 1:7
m = ( [ | p* = a | ] ).;BadSyntax at 1:12
m = ( [ | x = () | ] ).;BadSyntax at 1:15
+ a = ( | :b | a ).;BadSyntax at 1:1
+ = ( 3 ).;BadSyntax at 1:1
x = ( | p* = lobby | 3 ).;BadSyntax at 1:22
m = ( a: 1 B: 2 C: 3 D: 4 E: 5 F: 6 ).;TooManyArgs at 1:32
at: a B: b C: c D: d E: e F: f = ( a ).;TooManyArgs at 1:27
m = ( | :a. :b. :c. :d. :e. :f | a ).;TooManyArgs at 1:29
x = 1. x = 2.;DuplicateSlot at 1:8
x <- 1. x: v = ( v ).;DuplicateSlot at 1:9
x: v = ( v ). x <- 1.;DuplicateSlot at 1:15
x: v = ( v ). x.;DuplicateSlot at 1:15
x = zork.;NoSuchPath at 1:5
x = 3. y = x z.;NoSuchPath at 1:14
x. y = x z.;NoSuchPath at 1:10
m = ( 3 ). y = m.;NoSuchPath at 1:16
a = ( | b = c. c = 1 | ).;NoSuchPath at 1:13
p* = 3.;ParentNotObject at 1:1
p* = 'a'.;ParentNotObject at 1:1
nil = 3.;MissingCore nil
nil <- ().;MissingCore nil
nil = ( | true = () | ).;MissingCore true
nil = 'a'.;MissingCore nil
b = 1. a = ( | p* = lobby | ). c = a b.;NoSuchPath at 1:38
b = 1. a = ( | p* = lobby | ). c = a p b.;MissingCore nil
nil = ().;MissingCore true
nil = (). true = ().;MissingCore false
nil = (). true = (). false = ().;MissingCore integerTraits
nil = (). true = (). false = (). integerTraits = ().;MissingCore stringTraits
nil = (). true = (). false = (). integerTraits = (). stringTraits = ().;MissingCore vectorTraits
nil = (). true = (). false = (). integerTraits = (). stringTraits = (). vectorTraits = ().;MissingCore blockTraits";
