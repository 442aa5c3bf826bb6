//! Attributes and values: kind, other attributes, name, values in the range, values out of it.

pub const RANGES: &str = "Pin||width|1 64|0 65
Tunnel||width|1 64|0 65
Constant||width|1 64|0 65
Power||width|1 64|0 65
Ground||width|1 64|0 65
NOT Gate||width|1 64|0 65
Buffer||width|1 64|0 65
AND Gate||width|1 64|0 65
OR Gate||width|1 64|0 65
NAND Gate||width|1 64|0 65
NOR Gate||width|1 64|0 65
XOR Gate||width|1 64|0 65
XNOR Gate||width|1 64|0 65
Odd Parity||width|1 64|0 65
Even Parity||width|1 64|0 65
Controlled Buffer||width|1 64|0 65
Controlled Inverter||width|1 64|0 65
Multiplexer||width|1 64|0 65
Demultiplexer||width|1 64|0 65
BitSelector||width|1 64|0 65
Adder||width|1 64|0 65
Subtractor||width|1 64|0 65
Multiplier||width|1 64|0 65
Divider||width|1 64|0 65
Negator||width|1 64|0 65
Comparator||width|1 64|0 65
Shifter||width|1 64|0 65
BitAdder||width|1 64|0 65
Register||width|1 64|0 65
Counter||width|1 64|0 65
Shift Register||width|1 64|0 65
Pin||width|01 7|x -1 +1 0x2 100
Pin||facing|east west north south|up East 0
Splitter||facing|east west north south|up East 0
Clock||facing|east west north south|up East 0
Constant||facing|east west north south|up East 0
Pull Resistor||facing|east west north south|up East 0
AND Gate||facing|east west north south|up East 0
Multiplexer||facing|east west north south|up East 0
Decoder||facing|east west north south|up East 0
Adder||facing|east west north south|up East 0
BitAdder||facing|east west north south|up East 0
Pin||output|true false|yes 1 True
Splitter||incoming|1 64|0 65
Splitter||fanout|1 64|0 65
Splitter||appear|left right center legacy|middle
Splitter||spacing|1 9|0 10
Splitter|fanout=3|bit1|0 2 none|3 None -1
Constant||value|0 18446744073709551615 0x0 0xFfffffffffffffff|18446744073709551616 0x10000000000000000 0x 0X1 -1 1_0
Pull Resistor||pull|0 1 X|x 2
Bit Extender||in_width|1 64|0 65
Bit Extender||out_width|1 64|0 65
Bit Extender||type|zero one sign input|Zero
NOT Gate||size|20 30|40 50 020
AND Gate||size|30 50 70|20 60 050
AND Gate||inputs|2 64|1 65
AND Gate|inputs=3|negate2|true false|no
AND Gate||out|01 0Z Z1|1 z1
XNOR Gate||size|30 50 70|20 60 050
XNOR Gate||inputs|2 64|1 65
XNOR Gate|inputs=3|negate2|true false|no
XNOR Gate||out|01 0Z Z1|1 z1
Even Parity||size|30 50 70|20 60 050
Even Parity||inputs|2 64|1 65
Even Parity|inputs=3|negate2|true false|no
Even Parity||out|01 0Z Z1|1 z1
XOR Gate||xor|1 odd|even 01
XNOR Gate||xor|1 odd|2
NOT Gate||out|01 0Z Z1|Z
Buffer||out|01 0Z Z1|Z
Controlled Buffer||control|right left|up
Controlled Inverter||control|right left|up
Multiplexer||select|1 5|0 6
Multiplexer||disabled|Z 0|z 1
Demultiplexer||select|1 5|0 6
Demultiplexer||disabled|Z 0|z 1
Decoder||select|1 5|0 6
Decoder||disabled|Z 0|z 1
Priority Encoder||select|1 5|0 6
Priority Encoder||disabled|Z 0|z 1
Multiplexer||enable|true false|on
Demultiplexer||enable|true false|on
Decoder||enable|true false|on
Multiplexer||selloc|bl tr|br
Demultiplexer||selloc|bl tr|br
Demultiplexer||tristate|true false|on
Decoder||tristate|true false|on
BitSelector|width=20|group|1 20|0 21
BitSelector||group|8|9
Multiplier||mode|unsigned|twosComplement signed
Divider||mode|unsigned|twosComplement
Comparator||mode|unsigned twosComplement|signed
Shifter||shift|ll lr ar rl rr|al
BitAdder||inputs|1 64|0 65
D Flip-Flop||trigger|rising falling high low|edge
S-R Flip-Flop||trigger|rising falling high low|edge
Register||trigger|rising falling high low|edge
T Flip-Flop||trigger|rising falling|high low
J-K Flip-Flop||trigger|rising falling|high low
Counter||trigger|rising falling|high low
Shift Register||trigger|rising falling|high low
RAM||trigger|rising falling|high low
Counter||max|0 18446744073709551615 0xff|18446744073709551616 -1
Counter||ongoal|wrap stay continue load|Wrap
Shift Register||length|1 64|0 65
Shift Register||parallel|true false|both
ROM||addrWidth|1 24|0 25
ROM||dataWidth|1 64|0 65
RAM||addrWidth|1 24|0 25
RAM||dataWidth|1 64|0 65";
