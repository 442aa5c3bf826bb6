//! Components that records change, values out of range, and values with blanks and line ends.

// The last record for a thing counts, and a default out of range is refused where it is used.
pub const REPLACED: &str =
    "port,AND Gate,in1,-10000,10000^port,AND Gate,in1,5,-7|AND Gate|facing=south;negate1=true|1| in0:In:-20,-50:1:Ignored in1:In:-7,5:1:Ignored out:Out:0,0:1:Unknown
port,Multiplexer,en,10000,-10000|Multiplexer|enable=true|3| in0:In:-30,-10:1:Unknown in1:In:-30,10:1:Unknown sel:In:-20,20:1:Unknown en:In:10000,-10000:1:One out:Out:0,0:1:Unknown
delay,Adder,,1,^delay,Adder,,255,|Adder|width=4|255| a:In:-40,-10:4:Unknown b:In:-40,10:4:Unknown cin:In:-20,-20:1:Zero out:Out:0,0:4:Unknown cout:Out:-20,20:1:Unknown
delay,Adder,,255,^delay,Adder,,1,^delay,Subtractor,,9,|Adder|width=4|1| a:In:-40,-10:4:Unknown b:In:-40,10:4:Unknown cin:In:-20,-20:1:Zero out:Out:0,0:4:Unknown cout:Out:-20,20:1:Unknown
delay,Pin,,7,|Pin||-| p:Both:0,0:1:Unknown
default,AND Gate,inputs,64,^default,AND Gate,inputs,3,|AND Gate||1| in0:In:-50,-20:1:Ignored in1:In:-50,0:1:Ignored in2:In:-50,20:1:Ignored out:Out:0,0:1:Unknown
default,AND Gate,facing,north,|AND Gate||1| in0:In:-20,50:1:Ignored in1:In:20,50:1:Ignored out:Out:0,0:1:Unknown
default,Shift Register,parallel,false,|Shift Register|width=4|8| si:In:0,30:4:Unknown sh:In:0,40:1:One clk:In:0,50:1:Unknown clr:In:0,20:1:Zero q:Out:100,80:4:Unknown
default,Multiplier,width,0,|Multiplier|width=3|15| a:In:-40,-10:3:Unknown b:In:-40,10:3:Unknown cin:In:-20,-20:3:Zero out:Out:0,0:3:Unknown high:Out:-20,20:3:Unknown
default,OR Gate,inputs,65,|OR Gate||inputs=65
default,OR Gate,inputs,65,|AND Gate||1| in0:In:-50,-20:1:Ignored in1:In:-50,20:1:Ignored out:Out:0,0:1:Unknown";

// Components with two values out of range, of which the first in the table of kinds is told.
pub const FIRST: &str = "|OR Gate|inputs=65;facing=up|facing=up
|OR Gate|negate1=no;negate0=yes|negate0=yes
|Splitter|bit1=2;bit0=1;bit63=9|bit1=2
|Multiplexer|select=6;width=0|width=0
|BitSelector|group=9;width=65|width=65
|Pin|width=0;width=1|width=0";

// Values that are empty or have blanks or line ends.
pub const TEXTS: &str = "|ROM|contents=|10| a:In:0,10:8:Unknown out:Out:240,60:8:Unknown
|ROM|contents=addr/data: 08 8\r^256*ff|10| a:In:0,10:8:Unknown out:Out:240,60:8:Unknown
|ROM|contents=addr/data: 8 8^|10| a:In:0,10:8:Unknown out:Out:240,60:8:Unknown
|ROM|contents=addr/data: 8 8^257*1|contents=addr/data: 8 8^257*1
|ROM|contents=addr/data: 8 8^100|contents=addr/data: 8 8^100
|ROM|contents=addr/data: 8 9^1|contents=addr/data: 8 9^1
|ROM|contents=addr/data: 8 8|contents=addr/data: 8 8
|ROM|contents= |contents= 
|Pin|width=|width=
|Pin|label=|-| p:Both:0,0:1:Unknown";
