//! Texts of loops.

/// A running sum.
pub const ACC: &str = "\
loop acc
array a = 1 2 3
array b =
init s@1 = 0
t = load a[i]
s = add s@1 t
store b[i] s
end
";

/// A running sum whose last value is live at the end.
pub const ACCO: &str = "\
loop acco
array a = 1 2 3
array b =
init s@1 = 0
t = load a[i]
s = add s@1 t
store b[i] s
out s
end
";

/// An addition that takes its second alternative.
pub const ALTS: &str = "\
loop alts
param p = 4
x = add p 1
y = add x 1
m = mul y y
end
";

/// A recurrence through memory.
pub const CHAIN: &str = "\
loop chain
array a = 7
t = load a[i]
u = add t 1
store a[i+1] u
end
";

/// Cells that are loaded before they are stored to.
pub const SHIFT: &str = "\
loop shift
array a = 5 6 7
t = load a[i+1]
store a[i] t
end
";

/// A product that is placed by force.
pub const FORCE: &str = "\
loop force
param p = 2
x = add p p
y = add x p
m = mul p p
end
";

/// A store that is issued before the load of its cell.
pub const LATE: &str = "\
loop late
array a = 1 2 3
param p = 9
init s@1 = 0
t = load a[i]
s = add s@1 t
store a[i] p
end
";

/// One product.
pub const LONE: &str = "\
loop lone
param p = 3
m = mul p p
end
";

/// An operation far after the first.
pub const FAR: &str = "\
loop far
param p = 1
x = add p p
y = add x p
end
";

/// A recurrence over two iterations.
pub const POW: &str = "\
loop pow
array b =
param p = 3
init x@1 = 1
init x@2 = 2
x = mul x@2 p
store b[i] x
end
";

/// A guarded store within a recurrence.
pub const HOLD: &str = "\
loop hold
array a = 1 9
t = load a[i]
c = lt t 3
u = add t 1
store a[i+1] u if c
end
";

/// A guarded store.
pub const KEEP: &str = "\
loop keep
array a = 4 -1 6
array b = 7 7 7
t = load a[i]
c = lt 0 t
store b[i] t if c
end
";

/// A value that is live at the end and takes its initial value where there is no iteration.
pub const LAST: &str = "\
loop last
array a = 4 5
init t@1 = 9
t = load a[i]
out t
end
";

/// Absolute values.
pub const ABS: &str = "\
loop abs
array a = -5 3
array b =
t = load a[i]
c = lt t 0
n = sub 0 t
v = sel c n t
store b[i] v
end
";

/// The farthest cells.
pub const EDGE: &str = "\
loop edge
array a =
array b =
store a[i+64] 5
store b[i-64] 7
end
";

/// Sums of two arrays.
pub const SUM: &str = "\
loop sum
array a = 1 2
array c = 10 20
array b =
t = load a[i]
u = load c[i]
v = add t u
store b[i] v
end
";

/// A sum that wraps.
pub const WRAP: &str = "\
loop wrap
array b =
param p = 9223372036854775807
x = add p 1
store b[i] x
end
";

/// A running sum, a recurrence through memory, and a shift.
pub const THREE: &str = "\
loop acc
array a = 1 2 3
array b =
init s@1 = 0
t = load a[i]
s = add s@1 t
store b[i] s
end
loop chain
array a = 7
t = load a[i]
u = add t 1
store a[i+1] u
end
loop shift
array a = 5 6 7
t = load a[i+1]
store a[i] t
end
";
